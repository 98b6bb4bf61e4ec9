// The record's calls by numbers: each gives the refusal's number, 0 where there is none. The export of each call cites Called or CalledOut
// with its own request: its arguments are C's, columns and numbers, and carry no invariant. Each calls plant by itself: one
// function of a request over `answer_request` was proved, and measured as slower (docs/DECISIONS.md, Speed).
ghost use Rattle.std.specs.Prelude.{◌≡◌, Ok};
ghost use Rattle.vectors.specs.Figures.{house};
ghost use Rattle.vectors.specs.Units.{milligrams, ticks};
ghost use Rattle.plant.specs.Answer.{told};
ghost use Rattle.plant.specs.Record.{fresh_plant};
ghost use Rattle.plant.specs.Calls.{receiving, feeding, settling, returning, releasing, recycling, drawing, accepting, step};
ghost use Rattle.host.specs.Record.{plant_at, columns_at};
ghost use Rattle.host.specs.Calls.{Called, CalledOut, four_of, stripped_of, vector_of, n2_told, MadeCalled, totals_of, TotalsCalled};

use crate::record::{plant_at, put_plant};
use crate::told::tell;
use plant::Outcome;
use vectors::{Figures, Milligrams, Ticks};

// A fresh record of the house set.
#[unsafe(no_mangle)]
pub extern "C" fn jilghvani_fresh(columns: &mut [u64; 61])
    ensures { columns.new ≡ columns_at (fresh_plant house) }
{
    put_plant(columns, plant::fresh());
}

// A fresh record of any nine figures, or refusal 15 and one of the house set.
#[unsafe(no_mangle)]
pub extern "C" fn jilghvani_make(columns: &mut [u64; 61], figures: &[u64; 9]) -> u64
    ensures { MadeCalled figures.now result columns.new }
{
    let m = plant::make(Figures::from(*figures));
    put_plant(columns, m.plant);
    m.refusal.map_or(0, |r| r.number())
}

// Receive.
#[unsafe(no_mangle)]
pub extern "C" fn jilghvani_receive(columns: &mut [u64; 61], v: &[u64; 13]) -> u64
    ensures { Called columns.old (receiving v.now) result columns.new }
{
    let o = plant::receive(plant_at(columns), *v);
    put_plant(columns, o.plant);
    plant::refusal_of(o.answer)
}

// Feed: burnt, oxygen, nitrate and warn are told, zeros where it does not tell them.
#[unsafe(no_mangle)]
pub extern "C" fn jilghvani_feed(columns: &mut [u64; 61], k: u64, told: &mut [u64; 4]) -> u64
    ensures { CalledOut columns.old (feeding k) four_of result columns.new told.new }
{
    let o = plant::feed(plant_at(columns), k);
    put_plant(columns, o.plant);
    let t = plant::told_of(o.answer);
    *told = [t.burnt, t.oxygen, t.nitrate, t.warn];
    t.number
}

// Settle.
#[unsafe(no_mangle)]
pub extern "C" fn jilghvani_settle(columns: &mut [u64; 61], gas: u64, d: &[u64; 26]) -> u64
    ensures { Called columns.old (settling (milligrams gas) d.now) result columns.new }
{
    let o = plant::settle(plant_at(columns), Milligrams(gas), *d);
    put_plant(columns, o.plant);
    plant::refusal_of(o.answer)
}

// Return: the COD stripped is told, zero where it does not tell it.
#[unsafe(no_mangle)]
pub extern "C" fn jilghvani_return(columns: &mut [u64; 61], k: u64, told: &mut [u64; 1]) -> u64
    ensures { CalledOut columns.old (returning k) stripped_of result columns.new told.new }
{
    let o = plant::give_back(plant_at(columns), k);
    put_plant(columns, o.plant);
    let t = plant::told_of(o.answer);
    *told = [t.stripped];
    t.number
}

// Release: the vector is handed out.
#[unsafe(no_mangle)]
pub extern "C" fn jilghvani_release(columns: &mut [u64; 61], k: u64, v: &mut [u64; 13]) -> u64
    ensures { CalledOut columns.old (releasing k) vector_of result columns.new v.new }
{
    let o = plant::release(plant_at(columns), k);
    hand_out(columns, o, v)
}

// Draw: the same, to the host of a side-stream reactor.
#[unsafe(no_mangle)]
pub extern "C" fn jilghvani_draw(columns: &mut [u64; 61], k: u64, v: &mut [u64; 13]) -> u64
    ensures { CalledOut columns.old (drawing k) vector_of result columns.new v.new }
{
    let o = plant::draw(plant_at(columns), k);
    hand_out(columns, o, v)
}

// The record and the vector of an outcome, and the refusal's number.
fn hand_out(columns: &mut [u64; 61], o: Outcome, v: &mut [u64; 13]) -> u64
    ensures record { columns.new ≡ columns_at o.plant }
    ensures vector { v.new ≡ o.vector }
    ensures refusal { result ≡ (told o.answer).number }
{
    let Outcome {
        answer,
        vector,
        plant,
    } = o;
    put_plant(columns, plant);
    *v = vector;
    plant::refusal_of(answer)
}

// Accept: the N2 is told, zero where it does not tell it.
#[unsafe(no_mangle)]
pub extern "C" fn jilghvani_accept(
    columns: &mut [u64; 61],
    v: &[u64; 13],
    n: u64,
    told: &mut [u64; 1],
) -> u64
    ensures { CalledOut columns.old (accepting v.now (ticks n)) n2_told result columns.new told.new }
{
    let o = plant::accept(plant_at(columns), *v, Ticks(n));
    put_plant(columns, o.plant);
    let t = plant::told_of(o.answer);
    *told = [t.n2];
    t.number
}

// Recycle.
#[unsafe(no_mangle)]
pub extern "C" fn jilghvani_recycle(columns: &mut [u64; 61], k: u64) -> u64
    ensures { Called columns.old (recycling k) result columns.new }
{
    let o = plant::recycle(plant_at(columns), k);
    put_plant(columns, o.plant);
    plant::refusal_of(o.answer)
}

// COD, TKN, oxygen and nitrate of the three tanks. Refusals 15 and 1.
#[unsafe(no_mangle)]
pub extern "C" fn jilghvani_totals(columns: &[u64; 61], told: &mut [u64; 4]) -> u64
    ensures { TotalsCalled columns.now result told.new }
{
    let totals = holding::held(plant_at(columns)).map(
        |h|
            ensures { result ≡ totals_of (Ok h) }
        { [h.cod.0, h.tkn.0, h.oxygen.0, h.nitrate.0] },
    );
    tell(told, totals)
}
