// Tests of closing a proposal: examples of each outcome of close and gap on small records, and the number of settle's answer to what an
// accepted close gave. The vectors are written by their columns that are not zero.
//
//   examples   the records and the proposals
//   write      what the calls give, as text
#![tactic(auto)]

mod examples;
mod write;

fn main() {
    examples::accepted();
    examples::whole();
    examples::record_above();
    examples::column_above();
    examples::open();
    examples::two_apply();
    examples::figures_outside();
    examples::dairy();
}
