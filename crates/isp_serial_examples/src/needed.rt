//! Clauses that are not stronger than they have to be.

ghost use Rattle.isp_serial_examples.specs.NeededClauses.{KnownIsNeeded};
ghost use Rattle.isp_serial_examples.specs.OutgrownRows.{RestsIsNeeded};

/// Were a search allowed to leave out what its own transaction placed before its statement, answers wouldn't be serial.
pub fn law_known_is_needed()
    ensures { KnownIsNeeded }
{}

/// Were the key of a row that would get too large not locked, another session could make the row small, and answers wouldn't be serial.
pub fn law_rests_is_needed()
    ensures { RestsIsNeeded }
{}
