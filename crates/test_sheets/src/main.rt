// Tests of laboratory sheets: single values by their bits, refusals and their order, whole sheets, and what receive says behind them.
//
//   values   one value at one column, on a fresh record
//   whole    whole sheets, and records that refuse them
//   write    what a sheet gives, as text
#![tactic(auto)]

mod values;
mod whole;
mod write;

fn main() {
    values::counted();
    values::ceilings();
    values::sent_away();
    values::limits();
    whole::sheets();
    whole::first_bad_column();
    whole::behind();
}
