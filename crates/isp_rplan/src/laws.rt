//! The laws of a plan, each a public function with an empty body whose contract is the law.
ghost use Rattle.isp_rplan.specs.Divisions.{OnePlan, PlanDivides};

/// The pages of a path have one plan for a carry.
pub fn law_one_plan()
    ensures { OnePlan }
{}

/// A plan divides exactly the pages that have more entries than the fan-out, where these are counted after the divisions below, and
/// each of its divisions may be made.
pub fn law_plan_divides()
    ensures { PlanDivides }
{}
