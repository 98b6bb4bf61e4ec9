// Lengths: how many bytes answers have, without writing them.
//
//   answer   the length of an answer, and of the held line
//   input    the length of all that is answered to an input
//   claims    the laws of the definitions
#![tactic(auto)]

mod answer;
mod claims;
mod input;

pub use answer::{answer_length, held_length};
pub use claims::laws_hold;
pub use input::{AnswerBytes, answer_bytes};
