// The plant record: three tanks, the nine figures, and the eight calls that move columns between the tanks. It knows nothing of text.
//
//   record     the record, made with its figures, and what sends it away
//   answer     a call, what it answers, and the outcome
//   receiving  an ASM1 vector into the sludge tank
//   feeding    sludge to digester
//   settling   the digester's contents as the host's solver proposes them
//   returning  digester to reject
//   releasing  reject handed out: release, and draw to a side-stream reactor
//   recycling  reject back into the sludge tank
//   accepting  an ASM1 vector with nitrite from the reactor into the sludge tank
//   claims     the laws of the definitions
#![tactic(auto)]

mod accepting;
mod answer;
mod claims;
mod feeding;
mod receiving;
mod record;
mod recycling;
mod releasing;
mod returning;
mod settling;

pub use accepting::accept;
pub use answer::{Answer, Call, Outcome, Request, Told, refusal, refusal_of, told_of};
pub use claims::laws_hold;
pub use feeding::feed;
pub use receiving::receive;
pub use record::{Made, Plant, fresh, is_thousandths, make, usable};
pub use recycling::recycle;
pub use releasing::{draw, release};
pub use returning::give_back;
pub use settling::settle;
