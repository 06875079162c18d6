//! Calls of a store as data, and rows of them.
ghost use Rattle.std.specs.Prelude.{◌<◌};

/// Bytes of one value in a page, from a place on.
#[derive(Clone, Copy)]
pub(crate) struct Run {
    pub page: u32,
    pub at: u16,
    pub len: u16,
    pub byte: u8,
}

/// What is done to a store between two mini-transactions.
#[derive(Clone, Copy)]
pub(crate) enum Act {
    /// A mini-transaction that changes one run, one that changes three, and one that changes none.
    Put(Run),
    PutThree(Run, Run, Run),
    PutNone,
    Read(u32),
    /// A byte is told.
    Print,
    Flush,
    CleanSome,
    Checkpoint,
}

/// A row of acts.
#[derive(Clone, Copy)]
pub(crate) enum Plan {
    /// These.
    Given(&'static [Act]),
    /// One of them, so many times.
    Again(Act, u32),
    /// A byte of each of so many pages, from page 20 on.
    Pages(u32),
    /// So many mini-transactions of three whole pages each, told each. Each makes a batch of 12,319 bytes.
    Wide(u32),
    /// So many that change three runs anywhere, each flushed and told, with other calls between them.
    Mixed(u32),
}

impl Plan {
    /// How many acts it has.
    pub fn count(self) -> u32 {
        match self {
            Plan::Given(acts) => acts.len().min(1_000) as u32,
            Plan::Again(_, count) => count,
            Plan::Pages(count) => count,
            Plan::Wide(count) => count.saturating_mul(2),
            Plan::Mixed(count) => count.saturating_mul(4),
        }
    }

    /// The act at a place.
    pub fn act(self, at: u32) -> Act {
        match self {
            Plan::Given(acts) => acts.get(at as usize).copied().unwrap_or(Act::PutNone),
            Plan::Again(act, _) => act,
            Plan::Pages(_) => byte_of(at),
            Plan::Wide(_) => wide(at),
            Plan::Mixed(_) => mixed(at),
        }
    }
}

/// A byte of a page, from page 20 on.
fn byte_of(at: u32) -> Act {
    Act::Put(Run {
        page: at.saturating_add(20),
        at: 64,
        len: 1,
        byte: 7,
    })
}

/// All bytes of a page.
fn whole(page: u32, byte: u8) -> Run {
    Run {
        page,
        at: 0,
        len: 4_096,
        byte,
    }
}

/// Three whole pages, or the byte that is told of them.
fn wide(at: u32) -> Act {
    let number = at / 2;
    let page = 16 + number % 60 * 3;
    let byte = (number % 256) as u8;
    match at % 2 {
        0 => Act::PutThree(
            whole(page, byte),
            whole(page + 1, byte),
            whole(page + 2, byte),
        ),
        _ => Act::Print,
    }
}

/// A number below `end` for this place, as SplitMix draws them (Steele, Lea and Flood 2014).
fn drawn(at: u32, place: u32, end: u64) -> u64
    requires { 0 < end }
    ensures { result < end }
{
    let seed = u64::from(at)
        .wrapping_mul(16)
        .wrapping_add(u64::from(place));
    let first = seed.wrapping_mul(0x9E37_79B9_7F4A_7C15);
    let second = (first ^ first >> 30).wrapping_mul(0xBF58_476D_1CE4_E5B9);
    let third = (second ^ second >> 27).wrapping_mul(0x94D0_49BB_1331_11EB);
    (third >> 32) % end
}

/// Some bytes of some page of 200.
fn some_run(at: u32, place: u32) -> Run {
    Run {
        page: drawn(at, place, 200) as u32,
        at: drawn(at, place.saturating_add(1), 4_000) as u16,
        len: (drawn(at, place.saturating_add(2), 89) as u16).saturating_add(1),
        byte: drawn(at, place.saturating_add(3), 255) as u8,
    }
}

/// Three runs anywhere; what comes behind them.
fn mixed(at: u32) -> Act {
    match at % 4 {
        0 => Act::PutThree(some_run(at, 0), some_run(at, 4), some_run(at, 8)),
        1 => Act::Flush,
        2 => Act::Print,
        _ => besides(at),
    }
}

/// What is done besides between two mini-transactions.
fn besides(at: u32) -> Act {
    match drawn(at, 0, 30) {
        0 => Act::Checkpoint,
        1..6 => Act::CleanSome,
        6..12 => Act::Read(drawn(at, 1, 200) as u32),
        _ => Act::PutNone,
    }
}
