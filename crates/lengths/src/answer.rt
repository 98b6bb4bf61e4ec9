// The length of an answer, and of the held line, without their newline.
ghost use Rattle.std.specs.Prelude.{true, ◌≡◌, ◌≤◌, length};
ghost use Rattle.refusals.specs.Refusal.{number};
ghost use Rattle.reading.specs.Number.{decimal};
ghost use Rattle.reading.specs.declared.names.Vector.TheVariants.{Sludge};
ghost use Rattle.reading.specs.Names.{names_of};
ghost use Rattle.writing.specs.Answer.{columns_text, refused_text, answer_text, held_text};

use holding::HeldTotals;
use plant::Answer;
use reading::{ASM1_NAMES, find_byte};
use refusals::Refusal;

// How many bytes an answer has, with the vector that is handed out. What stands beside the digits are the labels' lengths, as in writing.
pub fn answer_length(a: Answer, v: [u64; 13]) -> usize
    ensures exact { result ≡ length (answer_text a v) }
    ensures at_most { result ≤ 512 }
{
    match a {
        Answer::Refused(r) => refused_length(r),
        Answer::Received => 12,
        Answer::Fed {
            burnt,
            oxygen,
            nitrate,
            warn,
        } => 39 + digits(burnt.0) + digits(oxygen.0) + digits(nitrate.0) + digits(warn),
        Answer::Settled => 11,
        Answer::Returned { stripped } => 21 + digits(stripped.0),
        Answer::Released => 12 + columns_length(v),
        Answer::Recycled => 12,
        Answer::Drawn => 9 + columns_length(v),
        Answer::Accepted { n2 } => 15 + digits(n2.0),
    }
}

// How many bytes the held line has; a record that is itself refused has a refusal there.
pub fn held_length(h: Result<HeldTotals, Refusal>) -> usize
    ensures exact { result ≡ length (held_text h) }
    ensures at_most { result ≤ 512 }
{
    match h {
        Ok(t) => 33 + digits(t.cod.0) + digits(t.tkn.0) + digits(t.oxygen.0) + digits(t.nitrate.0),
        Err(r) => refused_length(r),
    }
}

// A refusal, by its number.
fn refused_length(r: Refusal) -> usize
    ensures exact { result ≡ length (refused_text (number r)) }
    ensures at_most { result ≤ 25 }
{
    5 + digits(r.number())
}

// The columns of a vector: each has two brackets and two spaces, its name and its digits.
fn columns_length(v: [u64; 13]) -> usize
    ensures exact { result ≡ length (columns_text true (names_of Sludge) v) }
    ensures at_most { result ≤ 364 }
{
    let mut n = 0;
    for c in 0..13 {
        n += 4 + find_byte(&ASM1_NAMES[c], 0, b' ') + digits(v[c]);
    }
    n
}

// How many digits a number has.
fn digits(n: u64) -> usize
    ensures exact { result ≡ length (decimal n) }
    ensures at_most { result ≤ 20 }
{
    match n.checked_ilog10() {
        Some(k) => k as usize + 1,
        None => 1,
    }
}
