// The call on a line, and the held line.
ghost use Rattle.std.specs.Prelude.{◌≡◌};
ghost use Rattle.lines.specs.Asking.{form_outcome, LineAnswered, HeldAnswered};

use holding::held;
use plant::{Outcome, Plant, refusal};
use reading::{Asked, read_line};
use refusals::Refusal;
use requests::answer_entry;
use writing::{write_answer, write_held};

// The outcome of a line, and how many bytes its answer has: a refusal has an answer too, so that no Result holds both. With the part of
// the buffer in the place of the length, the promise would say nothing of the bytes behind it; C is handed a count.
#[derive(Clone, Copy)]
pub struct LineOutcome {
    pub outcome: Outcome,
    pub length: usize,
}

// What a line without its newline gives on the record, and its answer in the buffer; under 12 the buffer is left as it is.
pub fn answer_line(plant: Plant, line: &[u8], buf: &mut [u8]) -> LineOutcome
    ensures { LineAnswered plant line.now buf.old result buf.new }
{
    if buf.len() < 512 {
        return LineOutcome {
            outcome: refusal(plant, Refusal::ShortBuffer),
            length: 0,
        };
    }
    let outcome = form_outcome(plant, read_line(line));
    let length = write_answer(buf, outcome.answer, outcome.vector);
    LineOutcome { outcome, length }
}

// What a line that has been read gives on the record.
pub fn form_outcome(plant: Plant, asked: Option<Asked>) -> Outcome
    ensures { result ≡ form_outcome plant asked }
{
    match asked {
        Some(a) => answer_entry(plant, a.request, a.preview),
        None => refusal(plant, Refusal::NoForm),
    }
}

// The refusal of a held line, if any, and how many bytes the line has: a refused one is told in bytes too, so that a Result
// of the length would lose theirs; C is handed a count.
#[derive(Clone, Copy)]
pub struct HeldOutcome {
    pub refusal: Option<Refusal>,
    pub length: usize,
}

// Writes the held line without its newline; under 12 the buffer is left as it is. It is no twin of `answer_line`, which runs a call and
// hands its record on.
pub fn held_line(plant: Plant, buf: &mut [u8]) -> HeldOutcome
    ensures { HeldAnswered plant buf.old result buf.new }
{
    let totals = held(plant);
    let length = write_held(buf, totals);
    if 512 <= buf.len() {
        return HeldOutcome {
            refusal: totals.err(),
            length,
        };
    }
    HeldOutcome {
        refusal: Some(Refusal::ShortBuffer),
        length,
    }
}
