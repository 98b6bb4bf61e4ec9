// Tests of records made with figures of one's own: which nine numbers make one, a plant worked by hand with a dairy's set and with the
// greatest and the least that are permitted, and refusal 15 before refusal 1 in every call.
//
//   making    the wish for a record
//   worked    plants worked by hand, fed and returned whole
//   outside   calls on records whose figures are no permitted set
//   write     records and answers as text
#![tactic(auto)]

mod making;
mod outside;
mod worked;
mod write;

fn main() {
    making::wishes();
    worked::plants();
    outside::calls();
}
