//! Answer lines: one line of text for each answer, in the caller's line buffer.
#![tactic(auto)]

mod answer;
mod line;
mod writer;

pub use answer::Answer;
pub use line::write_line;
