// The calls on text. Each is one call of lines or lengths; they share `plant_at`, and differ in the call, what goes out and the outcome's
// type.
ghost use Rattle.std.specs.Prelude.{◌≡◌};
ghost use Rattle.lengths.specs.Lengths.{answer_bytes};
ghost use Rattle.host.specs.Record.{plant_at};
ghost use Rattle.host.specs.Calls.{LineCalled, HeldCalled, two_of};

use crate::record::{plant_at, put_plant};

// The call on a line without its newline: how many bytes the answer has, none under refusal 12. A buffer and a count: C lends the one, and
// the filled part cannot go back to it as a slice.
#[unsafe(no_mangle)]
pub extern "C" fn jilghvani_line(columns: &mut [u64; 61], line: &[u8], buf: &mut [u8]) -> usize
    ensures { LineCalled columns.old line.now buf.old result columns.new buf.new }
{
    let p = plant_at(columns);
    let a = lines::answer_line(p, line, buf);
    put_plant(columns, a.outcome.plant);
    a.length
}

// The held line without its newline: how many bytes it has, none under refusal 12.
#[unsafe(no_mangle)]
pub extern "C" fn jilghvani_held(columns: &[u64; 61], buf: &mut [u8]) -> usize
    ensures { HeldCalled columns.now buf.old result buf.new }
{
    let h = lines::held_line(plant_at(columns), buf);
    h.length
}

// How many bytes the answers to an input will have, the held line included, and how many of its lines are not counted; no record changes.
#[unsafe(no_mangle)]
pub extern "C" fn jilghvani_answer_bytes(columns: &[u64; 61], lines: &[u8], told: &mut [u64; 2])
    ensures { told.new ≡ two_of (answer_bytes (plant_at columns.now) lines.now) }
{
    let a = lengths::answer_bytes(plant_at(columns), lines);
    *told = [a.bytes as u64, a.uncounted as u64];
}
