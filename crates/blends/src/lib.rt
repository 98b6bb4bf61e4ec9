// Hauled loads in one blend: up to eight, each drawn by its own k, and all draws into the sludge tank.
//
//   call     the call
//   claims   the laws of the definitions
#![tactic(auto)]

mod call;
mod claims;

pub use call::blend;
pub use claims::laws_hold;
