//! The words of the grammar.

ghost use Rattle.std.specs.Prelude.{◌≡◌, drop};
ghost use Rattle.isp_tokens.specs.Words.{spelling, same_word, is_word, words, word_in, word_of, test_of, exchanged};

use isp_mbr::Test;

/// A word of the grammar or the name of one of its functions (the MySQL 8.0 manual on keywords and on functions that
/// use minimum bounding rectangles). None of them is a name.
#[derive(Clone, Copy, PartialEq, Eq)]
pub enum Word {
    Begin,
    Start,
    Transaction,
    Commit,
    Rollback,
    Create,
    Table,
    BigInt,
    Not,
    Null,
    Primary,
    Key,
    Spatial,
    Index,
    VarChar,
    Geometry,
    Srid,
    Insert,
    Into,
    Values,
    Select,
    From,
    Update,
    Set,
    Delete,
    Where,
    And,
    GeomFromText,
    Contains,
    Within,
    Intersects,
    Disjoint,
    Equals,
    Covers,
    CoveredBy,
}

/// All words.
pub const WORDS: [Word; 35] = [
    Word::Begin,
    Word::Start,
    Word::Transaction,
    Word::Commit,
    Word::Rollback,
    Word::Create,
    Word::Table,
    Word::BigInt,
    Word::Not,
    Word::Null,
    Word::Primary,
    Word::Key,
    Word::Spatial,
    Word::Index,
    Word::VarChar,
    Word::Geometry,
    Word::Srid,
    Word::Insert,
    Word::Into,
    Word::Values,
    Word::Select,
    Word::From,
    Word::Update,
    Word::Set,
    Word::Delete,
    Word::Where,
    Word::And,
    Word::GeomFromText,
    Word::Contains,
    Word::Within,
    Word::Intersects,
    Word::Disjoint,
    Word::Equals,
    Word::Covers,
    Word::CoveredBy,
];

/// How a word is written, but for its case.
#[tactic(auto, unfolding(crate::specs::Words::spelling))]
pub fn spelling(word: Word) -> &'static [u8]
    ensures { result.now ≡ spelling word }
{
    match word {
        Word::Begin => b"BEGIN",
        Word::Start => b"START",
        Word::Transaction => b"TRANSACTION",
        Word::Commit => b"COMMIT",
        Word::Rollback => b"ROLLBACK",
        Word::Create => b"CREATE",
        Word::Table => b"TABLE",
        Word::BigInt => b"BIGINT",
        Word::Not => b"NOT",
        Word::Null => b"NULL",
        Word::Primary => b"PRIMARY",
        Word::Key => b"KEY",
        Word::Spatial => b"SPATIAL",
        Word::Index => b"INDEX",
        Word::VarChar => b"VARCHAR",
        Word::Geometry => b"GEOMETRY",
        Word::Srid => b"SRID",
        Word::Insert => b"INSERT",
        Word::Into => b"INTO",
        Word::Values => b"VALUES",
        Word::Select => b"SELECT",
        Word::From => b"FROM",
        Word::Update => b"UPDATE",
        Word::Set => b"SET",
        Word::Delete => b"DELETE",
        Word::Where => b"WHERE",
        Word::And => b"AND",
        Word::GeomFromText => b"ST_GeomFromText",
        Word::Contains => b"MBRContains",
        Word::Within => b"MBRWithin",
        Word::Intersects => b"MBRIntersects",
        Word::Disjoint => b"MBRDisjoint",
        Word::Equals => b"MBREquals",
        Word::Covers => b"MBRCovers",
        Word::CoveredBy => b"MBRCoveredBy",
    }
}

/// Whether it is this word.
#[tactic(auto, unfolding(crate::specs::Words::is_word))]
pub fn is_word(word: Word, wanted: Word) -> bool
    ensures { result ≡ is_word word wanted }
{
    word == wanted
}

// Whether two texts are one word, in whatever case.
fn same_word(a: &[u8], b: &[u8]) -> bool
    ensures { result ≡ same_word a.now b.now }
{
    a.eq_ignore_ascii_case(b)
}

fn word_in(words: &[Word], text: &[u8]) -> Option<Word>
    ensures { result ≡ word_in words.now text.now }
{
    for word in words {
        if same_word(spelling(*word), text) {
            return Some(*word);
        }
    }
    None
}

/// The word that a text is, in whatever case.
#[tactic(auto, unfolding(crate::specs::Words::words))]
pub fn word_of(text: &[u8]) -> Option<Word>
    ensures { result ≡ word_of text.now }
{
    word_in(&WORDS, text)
}

/// The test of a function whose first argument is the column. Contains and Covers say that the first covers the
/// second, Within and CoveredBy that the second covers the first.
pub fn test_of(word: Word) -> Option<Test>
    ensures { result ≡ test_of word }
{
    match word {
        Word::Contains | Word::Covers => Some(Test::Covers),
        Word::Within | Word::CoveredBy => Some(Test::Within),
        Word::Intersects => Some(Test::Intersects),
        Word::Disjoint => Some(Test::Disjoint),
        Word::Equals => Some(Test::Equals),
        _ => None,
    }
}

/// The test with the other box first.
pub fn exchanged(test: Test) -> Test
    ensures { result ≡ exchanged test }
{
    match test {
        Test::Covers => Test::Within,
        Test::Within => Test::Covers,
        Test::Intersects => Test::Intersects,
        Test::Disjoint => Test::Disjoint,
        Test::Equals => Test::Equals,
    }
}
