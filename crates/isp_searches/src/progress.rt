//! A search comes to an end.

ghost use Rattle.isp_searches.specs.SearchLaws.{VisitComesNearer, VisitsEnd, VisitsOnce};

/// A visit comes to a new page, or remembers fewer pages, or has one right link less before it.
pub fn law_visit_comes_nearer()
    ensures { VisitComesNearer }
{}

/// Where nothing is placed between them, a search makes finitely many visits.
pub fn law_visits_end()
    ensures { VisitsEnd }
{}

/// Over a tree that stays, a search visits no page twice.
pub fn law_visits_once()
    ensures { VisitsOnce }
{}
