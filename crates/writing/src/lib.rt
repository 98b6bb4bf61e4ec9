// Writing: answers as text into a lent buffer.
//
//   put      bytes where they fit, and the part that is filled
//   page     bytes, numbers and columns, each behind the piece before
//   answer   an answer and the held line as text
//   claims    the laws of the definitions
#![tactic(auto)]

mod answer;
mod claims;
mod page;
mod put;

pub use answer::{filled_answer, write_answer, write_held};
pub use claims::laws_hold;
pub use page::Page;
pub use put::{filled_part, put_fitting, split_filled};
