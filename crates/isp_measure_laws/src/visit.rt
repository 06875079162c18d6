//! What a visit comes to.

ghost use Rattle.isp_measure_laws.specs.Visits.{VisitComesOn};

/// A visit comes to a new page, or the search remembers fewer pages, or as many and has one page less to come to again.
pub fn law_visit_comes_on()
    ensures { VisitComesOn }
{}
