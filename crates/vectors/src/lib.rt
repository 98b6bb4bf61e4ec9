// Vectors of columns: units, figures, ceilings, draws and totals. It knows nothing of the conversions.
//
//   units      one tuple struct for each unit, and the trait of their sums
//   figures    the nine figures, the house set, and which sets are permitted
//   vector     what differs between the ASM1 and the digester vector
//   ceilings   ceilings of the columns, and sums of vectors
//   draw       k thousandths of a vector
//   totals     COD and TKN
//   claims     the laws of the definitions
#![tactic(auto)]

mod ceilings;
mod claims;
mod draw;
mod figures;
mod totals;
mod units;
mod vector;

pub use ceilings::{is_within, sum, sum_is_within, sum_within};
pub use claims::laws_hold;
pub use draw::{drawn, rest};
pub use figures::{Figures, HOUSE, is_permitted};
pub use totals::{cod, tkn};
pub use units::{Milligrams, Millimoles, Rate, Ticks, Unit, afforded, covering, nitrogen, share};
pub use vector::{COD_CEILING, TICK_CEILING, Vector};
