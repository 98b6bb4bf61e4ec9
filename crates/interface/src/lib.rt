// The ASM1 and ADM1 interface: the two conversions. It knows nothing of the plant record or of text.
//
//   feed       ASM1 to digester, stages 1 to 5
//   returning  digester to ASM1
//   whole      both of any vector, one above its ceilings too
//   claims     the laws of the definitions
#![tactic(auto)]

mod claims;
mod feed;
mod returning;
mod whole;

pub use claims::laws_hold;
pub use feed::{Fed, feed_of};
pub use returning::{Returned, return_of};
pub use whole::{adm_to_asm, asm_to_adm};
