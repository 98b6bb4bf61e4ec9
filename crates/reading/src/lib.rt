// Reading: a line in brackets is a call with its vectors, a preview of one, or no form.
//
//   bytes    searching
//   number   decimal numbers
//   names    the names of the columns
//   fields   fields in brackets, in the order of their columns
//   form     the form of a call, with its vectors
//   line     a line: a call, a preview of one, or no form
//   claims    the laws of the definitions
#![tactic(auto)]

mod bytes;
mod claims;
mod fields;
mod form;
mod line;
mod names;
mod number;

pub use bytes::find_byte;
pub use claims::laws_hold;
pub use form::Asked;
pub use line::read_line;
pub use names::{ASM1_NAMES, DIGESTER_NAMES};
pub use number::read_number;
