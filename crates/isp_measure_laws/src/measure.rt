//! What each event lowers.

ghost use Rattle.isp_measure_laws.specs.Lowers.{EachEventLowers};

/// From a state in order, each event but a flush and a list of the locks lowers the measure, whoever acts and whatever is chosen.
pub fn law_each_event_lowers()
    ensures { EachEventLowers }
{}
