//! What lies outside the program: the world, a disk with a printer beside it, and the source that a script is read
//! from. A world says what a stop at each moment may leave of its disk, and what was printed by then. There are fakes
//! of both in memory, which tell their bytes, and adapters to a file and the standard streams, which tell nothing and
//! are the trusted edge.
#![tactic(auto)]

mod call_log;
mod file_world;
mod mem_source;
mod mem_world;
mod source;
mod stdin_source;
mod stops;
mod world;

pub use file_world::FileWorld;
pub use mem_source::MemSource;
pub use mem_world::MemWorld;
pub use source::Source;
pub use stdin_source::StdinSource;
pub use world::{Failed, World};
