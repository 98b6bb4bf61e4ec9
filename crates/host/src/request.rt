// The requests of the three calls that take a vector, as functions, since Request is plant's type; `Request::from` makes the others.
ghost use Rattle.std.specs.Prelude.{◌≡◌};
ghost use Rattle.vectors.specs.Units.{milligrams, ticks};
ghost use Rattle.plant.specs.Calls.{receiving, settling, accepting};

use plant::{Call, Request};
use vectors::{Milligrams, Ticks};

// A receive.
pub fn receiving(v: &[u64; 13]) -> Request
    ensures { result ≡ receiving v.now }
{
    Request {
        sludge: *v,
        ..Request::from(Call::Receive)
    }
}

// A settle.
pub fn settling(gas: u64, d: &[u64; 26]) -> Request
    ensures { result ≡ settling (milligrams gas) d.now }
{
    Request {
        digester: *d,
        ..Request::from(Call::Settle(Milligrams(gas)))
    }
}

// An accept.
pub fn accepting(v: &[u64; 13], n: u64) -> Request
    ensures { result ≡ accepting v.now (ticks n) }
{
    Request {
        sludge: *v,
        ..Request::from(Call::Accept(Ticks(n)))
    }
}
