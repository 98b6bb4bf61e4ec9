// Any of the eight calls, by a request, and a preview of it.
// The calls themselves are crate plant's.
#![tactic(auto)]

mod calls;

pub use calls::{answer_entry, answer_request, preview};
