// Vectors by the names of their columns, each in its unit, and their arrays.
// The conversions compute on these.
#![tactic(auto)]

mod columns;

pub use columns::{Asm1, Digester};
