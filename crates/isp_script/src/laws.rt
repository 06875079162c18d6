//! What holds of all scripts.

ghost use Rattle.isp_script.specs.Laws.{LinesSpelled, OneScript, OneBadLine, ScriptOrBadLine, NotBoth, WithinLimits};

/// Lines that are spelled with a line feed behind each, and what stands behind the last one, are these lines; where
/// nothing stands there, it is no line.
pub fn law_lines_spelled()
    ensures { LinesSpelled }
{}

/// Bytes are one script at most.
pub fn law_one_script()
    ensures { OneScript }
{}

/// Bytes have one bad line at most.
pub fn law_one_bad_line()
    ensures { OneBadLine }
{}

/// Bytes are a script, or have a bad line, and never both.
pub fn law_script_or_bad_line()
    ensures either { ScriptOrBadLine }
    ensures not_both { NotBoth }
{}

/// The sessions of a script have numbers from 1 to 16, and its texts at most 65,536 bytes.
pub fn law_within_limits()
    ensures { WithinLimits }
{}
