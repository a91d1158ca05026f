//! The lines of the day book.
#![tactic(auto)]

mod lines;
mod pieces;
mod text;

pub use lines::{Line, next_line, read_line};
pub use pieces::read_number;
pub use text::Lines;
