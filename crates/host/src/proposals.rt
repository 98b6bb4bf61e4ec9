// A proposal for settle: each gives the refusal's number, 0 where there is none, and leaves the record as it is. Each is one call of
// closing; they share `plant_at` and `tell`, and differ in the call, what goes out and the outcome's type.
ghost use Rattle.std.specs.Prelude.{◌≡◌, Ok};
ghost use Rattle.host.specs.Calls.{CloseCalled, three_of, GapCalled};

use crate::record::plant_at;
use crate::told::tell;

// The proposal becomes what closes it, and the gas is told.
#[unsafe(no_mangle)]
pub extern "C" fn jilghvani_close(
    columns: &[u64; 61],
    d: &mut [u64; 26],
    told: &mut [u64; 1],
) -> u64
    ensures { CloseCalled columns.now d.old result d.new told.new }
{
    // a match: two things go out, and with `map_or` for the vector `returns` stays open without a clause on its closure
    match closing::close(plant_at(columns), *d) {
        Ok(c) => {
            // by a variable: the borrow checker covers an array of a struct neither stored straight nor taken by the arm's pattern
            let vector = c.vector;
            *d = vector;
            tell(told, Ok([c.gas.0]))
        }
        Err(refusal) => tell(told, Err(refusal)),
    }
}

// How far off the proposal is: COD too much, nitrogen too much, and the sin that closes above its ceiling.
#[unsafe(no_mangle)]
pub extern "C" fn jilghvani_gap(columns: &[u64; 61], d: &[u64; 26], told: &mut [u64; 3]) -> u64
    ensures { GapCalled columns.now d.now result told.new }
{
    let gaps = closing::gap(plant_at(columns), *d).map(
        |g|
            ensures { result ≡ three_of (Ok g) }
        { [g.cod.0, g.tkn.0, g.sin.0] },
    );
    tell(told, gaps)
}
