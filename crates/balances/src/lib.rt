// The list theorem: over any list of calls, previews, sheets and blends, COD, TKN, oxygen and nitrate balance. The calls are those of the
// crates below, by the definitions that their contracts cite.
//
//   claims   the balances, and what stands beside them
#![tactic(auto)]

mod claims;

pub use claims::laws_hold;
