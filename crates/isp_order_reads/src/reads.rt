//! What is found and read, clause by clause.

ghost use Rattle.isp_order_reads.specs.ReadOrder.{KeepsKeys, KeepsScanned, KeepsStanding};

/// What a statement has read stood there as it began.
pub fn law_standing_kept()
    ensures { KeepsStanding }
{}

/// The keys that a statement has read are locked, rise, and are those that it sought.
pub fn law_keys_kept()
    ensures { KeepsKeys }
{}

/// While it scans, it has read the rows on the leaves that it has gone over.
pub fn law_scanned_kept()
    ensures { KeepsScanned }
{}
