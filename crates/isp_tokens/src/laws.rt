//! What holds of all texts and words.

ghost use Rattle.isp_tokens.specs.Laws.{TokensAsWritten, WordsAreKnown};

/// Scanning a text from left to right finds the tokens that it is, and nothing where it is none. So a text is one list
/// of tokens at most.
pub fn law_tokens_as_written()
    ensures { TokensAsWritten }
{}

/// Each word of the grammar is known by its own spelling, so that no two of them are one.
pub fn law_words_are_known()
    ensures { WordsAreKnown }
{}
