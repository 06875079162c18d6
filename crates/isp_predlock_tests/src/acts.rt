//! What is done to a table, and what is seen of it.

/// A search by its number, and its session.
pub(crate) type Whose = (usize, u32);

/// The entry of a page for one of its children, by its corners before and after.
#[derive(Clone, Copy)]
pub(crate) struct Grown {
    pub parent: u32,
    pub child: u32,
    pub old: [i32; 4],
    pub new: [i32; 4],
}

/// An entry that a session wants to place, with the number of searches that it is tested against and those that stand in its
/// way.
#[derive(Clone, Copy)]
pub(crate) struct Try {
    pub session: u32,
    pub leaf: u32,
    pub corners: [i32; 4],
    pub tests: usize,
    pub by: &'static [Whose],
}

/// One thing that is done or seen.
#[derive(Clone, Copy)]
pub(crate) enum Act {
    /// A session begins a search for boxes that meet the one with these corners. It gets this number.
    Begins(u32, [i32; 4], usize),
    /// A search is attached to a page.
    Attaches(usize, u32),
    /// The searches on a page are copied to another one, for the box with these corners.
    Copies(u32, u32, [i32; 4]),
    /// A session releases its searches.
    Releases(u32),
    /// The searches on a page, in order of beginning.
    SeesPage(u32, &'static [Whose]),
    /// The pages of a search, rising.
    SeesSearch(usize, &'static [u32]),
    /// The searches of a session, in order of beginning.
    SeesSession(u32, &'static [usize]),
    /// An entry is tried, where nobody percolates.
    Tries(Try),
    /// These boxes grow: so many searches percolate, each with its page. With them the entry is tried, and then they are
    /// attached.
    Grows(&'static [Grown], &'static [(usize, u32, u32)], Try),
}
