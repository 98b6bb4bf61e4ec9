// What is held: COD, TKN, oxygen and nitrate of the three tanks.
// It reads the record and leaves it as it is.
#![tactic(auto)]

mod holding;

pub use holding::{HeldTotals, held};
