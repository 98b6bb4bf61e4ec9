// The link for a host in C: functions on numbers and byte slices, whose record is 61 numbers lent as a fixed array. ../../host/jilghvani.h
// declares them for C. Nothing is kept between calls. Refusals go out as numbers and filled parts as counts: C has no Result and no slice.
//
//   text         the call on a line, the held line, and how long the answers will be
//   composed     calls by numbers as lines
//   numbers      the record's calls by numbers, and what is in the tanks
//   laboratory   a laboratory sheet by kinds and values
//   conversions  the two conversions of a vector by itself
//   proposals    a proposal for settle: what closes it, and how far off it is
//   hauled       several hauled loads in one blend
//   record       61 numbers and the plant record that they stand for
//   request      the requests of the three calls that take a vector
//   told         the numbers that a call tells, or its refusal
//   claims       the laws of the definitions
#![tactic(auto)]

mod claims;
mod composed;
mod conversions;
mod hauled;
mod laboratory;
mod numbers;
mod proposals;
mod record;
mod request;
mod text;
mod told;

pub use claims::laws_hold;
pub use composed::{
    jilghvani_write_accept, jilghvani_write_draw, jilghvani_write_feed, jilghvani_write_receive,
    jilghvani_write_recycle, jilghvani_write_release, jilghvani_write_return,
    jilghvani_write_settle,
};
pub use conversions::{jilghvani_adm_to_asm, jilghvani_asm_to_adm};
pub use hauled::jilghvani_blend;
pub use laboratory::jilghvani_sheet;
pub use numbers::{
    jilghvani_accept, jilghvani_draw, jilghvani_feed, jilghvani_fresh, jilghvani_make,
    jilghvani_receive, jilghvani_recycle, jilghvani_release, jilghvani_return, jilghvani_settle,
    jilghvani_totals,
};
pub use proposals::{jilghvani_close, jilghvani_gap};
pub use text::{jilghvani_answer_bytes, jilghvani_held, jilghvani_line};
