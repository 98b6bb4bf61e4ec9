// The length of all that is answered to an input.
ghost use Rattle.std.specs.Prelude.{◌≡◌, length, drop};
ghost use Rattle.lines.specs.Session.{cut_lines};
ghost use Rattle.lengths.specs.Lengths.{answer_bytes};

use crate::answer::{answer_length, held_length};
use holding::held;
use lines::form_outcome;
use plant::Plant;
use reading::{find_byte, read_line};

// The bytes of the answers to the first 1,000 lines and of the held line behind them, newlines included, and how many lines follow.
#[derive(Clone, Copy)]
pub struct AnswerBytes {
    pub bytes: usize,
    pub uncounted: usize,
}

// What `sludgeline` would print for an input on the record, by its length: no answer is written.
pub fn answer_bytes(plant: Plant, input: &[u8]) -> AnswerBytes
    ensures { result ≡ answer_bytes plant input.now }
{
    let mut p = plant;
    let mut bytes = 0;
    let mut from = 0;
    let mut counted: usize = 0;
    while counted < 1000 && from < input.len() {
        let end = find_byte(input, from, b'\n');
        let o = form_outcome(p, read_line(&input[from..end]));
        p = o.plant;
        bytes += answer_length(o.answer, o.vector) + 1;
        from = end + 1;
        counted += 1;
    }
    AnswerBytes {
        bytes: bytes + held_length(held(p)) + 1,
        uncounted: lines_from(input, from),
    }
}

// How many lines an input has from a place on.
fn lines_from(input: &[u8], from: usize) -> usize
    ensures { result ≡ length (cut_lines (drop from input.now)) }
{
    let mut at = from;
    let mut n = 0;
    while at < input.len() {
        at = find_byte(input, at, b'\n') + 1;
        n += 1;
    }
    n
}
