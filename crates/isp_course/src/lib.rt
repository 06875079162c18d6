//! Each statement at work has read and written what plain tables would have it read and write, whatever happens.
#![tactic(auto)]

mod course;

pub use course::law_course_kept;
