// Texts made in a line, one behind the other: numbers in decimal, and bytes as they are. A line is copied to a lent
// buffer once it is whole. Number and text can be written to a place of a lent buffer too.
#![tactic(auto)]

pub use line::Line;
pub use printing::{field, number, say, width};

mod line;
mod printing;
