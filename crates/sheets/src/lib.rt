// Laboratory sheets: thirteen entries in single-precision grams, or moles, counted exactly and received.
//
//   finding    an entry of a sheet, and what it comes to at its column
//   value      one value or limit: the floor of it times a scale, by its bits
//   sheet      thirteen entries: what each comes to, or the first refusal
//   call       a sheet into the sludge tank
//   claims     the laws of the definitions
#![tactic(auto)]

mod call;
mod claims;
mod finding;
mod sheet;
mod value;

pub use call::{SheetOutcome, Unseen, receive_sheet};
pub use claims::laws_hold;
pub use finding::Finding;
