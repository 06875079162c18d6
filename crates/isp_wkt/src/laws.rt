//! What holds of all texts.

ghost use Rattle.isp_wkt.specs.Laws.{FaultsStop, OneMeaning, PrintedTextMeans, FaultsOutside, FaultPlaces, LongestFront, OneFaultPlace, FrontsGoOn, CausesHold, EndsEarly, StandsBehind, GoesDeeper, BreaksNumbers, PassesLimits};

/// A text means one geometry at most.
pub fn law_one_meaning()
    ensures { OneMeaning }
{}

/// The printed form of a geometry is a text that means it. So what is printed is read as the same geometry, where it
/// has at most 65,536 bytes.
pub fn law_printed_text_means()
    ensures { PrintedTextMeans }
{}

/// No text of the grammar begins with the bytes before a fault and the byte at it.
pub fn law_faults_stop()
    ensures { FaultsStop }
{}

/// A text has a fault exactly where it means no geometry. Its place is the first byte after which no text of the grammar
/// goes on, or the length where the text ends too early: the bytes before it go on, and no longer front of the text does.
/// So a text has one such place.
pub fn law_fault_place()
    ensures outside { FaultsOutside }
    ensures place { FaultPlaces }
    ensures longest { LongestFront }
    ensures one { OneFaultPlace }
{}

/// What goes on by the rule that the depth of collections is tested at their `(` alone: the fronts of texts of the
/// grammar, and those that end in the word of a ninth collection, in a front of it, or in the blanks behind it.
pub fn law_fronts_go_on()
    ensures { FrontsGoOn }
{}

/// What a cause says of the bytes before its place and of the byte at it is true; and Truncated, NotWhole, OutOfRange,
/// TooDeep and Trailing come wherever what they say is true of the place of the fault.
pub fn law_fault_causes()
    ensures hold { CausesHold }
    ensures truncated { EndsEarly }
    ensures trailing { StandsBehind }
    ensures deep { GoesDeeper }
    ensures not_whole { BreaksNumbers }
    ensures out_of_range { PassesLimits }
{}
