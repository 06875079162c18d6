//! The order of measures.

ghost use Rattle.isp_measure.specs.Order.{OrderIsWellFounded};

/// Lists of so many numbers, compared from the first on, fall a finite number of times.
pub fn law_order_is_well_founded()
    ensures { OrderIsWellFounded }
{}
