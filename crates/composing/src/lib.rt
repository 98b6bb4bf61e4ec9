// Composing: a call as its line, in a lent buffer.
//
//   line   a call's line and its newline
//   claims    the laws of the definitions
#![tactic(auto)]

mod claims;
mod line;

pub use claims::laws_hold;
pub use line::{filled_line, write_line};
