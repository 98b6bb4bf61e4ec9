// A call, what it answers, and the outcome.
ghost use Rattle.std.specs.Prelude.{◌≡◌};
ghost use Rattle.plant.specs.Answer.{refused, outcome_of, nothing, told};
ghost use Rattle.plant.specs.Calls.{request};

use crate::record::Plant;
use refusals::Refusal;
use vectors::{Milligrams, Ticks};

// A call. Feed, Return, Release, Recycle and Draw have their k, Settle its gas COD, and Accept its nitrite.
#[derive(Clone, Copy)]
pub enum Call {
    Receive,
    Feed(u64),
    Settle(Milligrams),
    Return(u64),
    Release(u64),
    Recycle(u64),
    Draw(u64),
    Accept(Ticks),
}

// A call with the vectors that it is handed: Receive and Accept take sludge, Settle takes digester, and the others none. The vectors stand
// beside the enum, as document 01 asks ("Where each form goes").
#[derive(Clone, Copy)]
pub struct Request {
    pub call: Call,
    pub sludge: [u64; 13],
    pub digester: [u64; 26],
}

// The request of a call by itself: both vectors are zero.
impl From<Call> for Request {
    ghost from_gives = { λ c r. r ≡ request c };

    fn from(call: Call) -> Request {
        Request {
            call,
            sludge: [0; 13],
            digester: [0; 26],
        }
    }
}

// What a call answers: a refusal, or the numbers that it tells.
#[derive(Clone, Copy)]
pub enum Answer {
    Refused(Refusal),
    Received,
    Fed {
        burnt: Milligrams,
        oxygen: Milligrams,
        nitrate: Ticks,
        // a number, as document 01 tells it: `told_of` and the writer of a line take any
        warn: u64,
    },
    Settled,
    Returned {
        stripped: Milligrams,
    },
    Released,
    Recycled,
    Drawn,
    Accepted {
        n2: Ticks,
    },
}

// The answer, the vector that a release or a draw hands out, which is zero otherwise, and the new record. The vector stands beside the
// answer, as document 01 asks.
#[derive(Clone, Copy)]
pub struct Outcome {
    pub answer: Answer,
    pub vector: [u64; 13],
    pub plant: Plant,
}

// A refusal: the record that was handed in, and zeros.
pub fn refusal(p: Plant, r: Refusal) -> Outcome
    ensures { result ≡ refused p r }
{
    Outcome {
        answer: Answer::Refused(r),
        vector: [0; 13],
        plant: p,
    }
}

// A call's own outcome, or that of the refusal that sends it away.
pub(crate) fn outcome_of(p: Plant, done: Result<Outcome, Refusal>) -> Outcome
    ensures { result ≡ outcome_of p done }
{
    done.unwrap_or_else(|r| refusal(p, r))
}

// What an answer tells, as numbers: the refusal's, or 0, and the values; those that it does not tell are 0. The C interface tells them so,
// and the sums of the balances are over them.
#[derive(Clone, Copy)]
pub struct Told {
    pub number: u64,
    pub burnt: u64,
    pub oxygen: u64,
    pub nitrate: u64,
    pub warn: u64,
    pub stripped: u64,
    pub n2: u64,
}

// The numbers of an answer. No From: the promise says the definition's word, and `Told::from(a)` would say no more.
pub fn told_of(a: Answer) -> Told
    ensures { result ≡ told a }
{
    match a {
        Answer::Refused(r) => nothing_but(r.number()),
        Answer::Fed {
            burnt,
            oxygen,
            nitrate,
            warn,
        } => Told {
            burnt: burnt.0,
            oxygen: oxygen.0,
            nitrate: nitrate.0,
            warn,
            ..nothing_but(0)
        },
        Answer::Returned { stripped } => Told {
            stripped: stripped.0,
            ..nothing_but(0)
        },
        Answer::Accepted { n2 } => Told {
            n2: n2.0,
            ..nothing_but(0)
        },
        Answer::Received | Answer::Settled | Answer::Released | Answer::Recycled | Answer::Drawn =>
            nothing_but(0),
    }
}

// A refusal's number, or 0, and no value: its definition's word, and not a Default, whose clause would say no more.
fn nothing_but(n: u64) -> Told
    ensures { result ≡ nothing n }
{
    Told {
        number: n,
        burnt: 0,
        oxygen: 0,
        nitrate: 0,
        warn: 0,
        stripped: 0,
        n2: 0,
    }
}

// The refusal's number, or 0.
pub fn refusal_of(a: Answer) -> u64
    ensures { result ≡ (told a).number }
{
    told_of(a).number
}
