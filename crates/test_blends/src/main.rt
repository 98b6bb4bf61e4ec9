// Tests of a blend: how many loads there are, how long the slices are, each refusal and their order, and the order of the loads.
//
//   loads    loads that a haulier brings, in any order and up to eight
//   lengths  slices that are no blend
//   sent     refusals 15, 1, 2, 3 and 10, and which of them comes first
//   write    what a blend gives, as text
#![tactic(auto)]

mod lengths;
mod loads;
mod sent;
mod write;

fn main() {
    loads::one();
    loads::several();
    loads::shuffled();
    lengths::no_loads();
    lengths::off_by_one();
    lengths::agreeing();
    sent::each_k();
    sent::each_column();
    sent::together();
    sent::first_applies();
}
