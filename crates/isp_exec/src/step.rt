//! What a step answers.

use isp_plain::Reply;

/// What one step of a statement was.
#[derive(Drop)]
pub enum Step {
    /// One event: a key was read, a leaf was scanned, a row was written or marked, or a change was taken back.
    Event,
    /// The same, after which the statement takes back what it has changed; with the number of its refusal.
    Failing { number: u32 },
    /// The statement is ready, with its answer.
    Ready(Reply),
}
