//! Answers that are serial by computation.

ghost use Rattle.isp_event_laws.specs.EventLaws.{SerialComputes};

/// Where the transactions of answers agree, one after another, the computation gives the tables that they leave.
pub fn law_serial_computes()
    ensures { SerialComputes }
{}
