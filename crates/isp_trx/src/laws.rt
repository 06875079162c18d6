//! What sweeps of single keys make together.
ghost use Rattle.isp_trx.specs.Laws.{SweepsBegin, SweepsGoOn};

/// Nothing was swept of the contents as they are.
pub fn law_sweeps_begin()
    ensures { SweepsBegin }
{}

/// A sweep goes on by one key.
pub fn law_sweeps_go_on()
    ensures { SweepsGoOn }
{}
