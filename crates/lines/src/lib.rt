// Lines: the call on a line, and a session over an input that falls into blocks.
//
//   asking   the call on a line, and the held line
//   blocks   a session step by step and block by block
//   claims    the laws of the definitions
#![tactic(auto)]

mod asking;
mod blocks;
mod claims;

pub use asking::{HeldOutcome, LineOutcome, answer_line, form_outcome, held_line};
pub use blocks::{Place, answer_block, end_session, step};
pub use claims::laws_hold;
