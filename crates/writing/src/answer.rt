// Answers as text. The answer stands first in the lent buffer, and the bytes behind it keep their values.
ghost use Rattle.std.specs.Prelude.{◌≡◌, ◌+◌, ◌≤◌, length, drop};
ghost use Rattle.writing.specs.Buffer.{Answered};
ghost use Rattle.writing.specs.Page.{HasRoom, Wrote};
ghost use Rattle.refusals.specs.Refusal.{number};
ghost use Rattle.writing.specs.Answer.{handed_text, refused_text, answer_text, held_text, fitting};

use crate::page::Page;
use crate::put::split_filled;
use holding::HeldTotals;
use plant::Answer;
use reading::ASM1_NAMES;
use refusals::Refusal;

// Writes an answer, with the vector that is handed out, and tells how many bytes it has; a buffer under 512 bytes is left as it is.
// It gives 0 there and no Result: a short buffer's answer is empty, and neither this nor `write_held` could fail or may begin to.
// Test, page, writer stand in both and in composing's `write_line`: with a closure the writer's contract would be its requires again.
pub fn write_answer(buf: &mut [u8], a: Answer, v: [u64; 13]) -> usize
    ensures { Answered buf.old (fitting (length buf.old) (answer_text a v)) result buf.new }
{
    if buf.len() < 512 {
        return 0;
    }
    let mut page = Page { bytes: buf, at: 0 };
    put_answer(&mut page, a, v);
    page.at
}

// The same, and hands back the part of the buffer that the answer fills, shared, and the bytes behind it. A buffer that goes into the
// result has no value at exit in a contract, so that only the second part can say that these kept theirs.
pub fn filled_answer<'a>(buf: &'a mut [u8], a: Answer, v: [u64; 13]) -> (&'a [u8], &'a [u8])
    ensures part { (result.0.now ≡ fitting (length buf.old) (answer_text a v)) × (result.0.ref_ptr ≡ buf.entry.ref_ptr) }
    ensures behind { result.1.now ≡ drop (length (fitting (length buf.old) (answer_text a v))) buf.old }
{
    let n = write_answer(buf, a, v);
    split_filled(buf, n)
}

// An answer. It is no `Display`: where std's `write!` answers Err it promises nothing of the buffer, and `write_answer` cannot fail.
fn put_answer(page: &mut Page, a: Answer, v: [u64; 13])
    requires { HasRoom page.old 512 }
    ensures { (Wrote page.old (answer_text a v) page.new) × (page.new.at ≤ page.old.at + 512) }
{
    match a {
        Answer::Refused(r) => put_refused(page, r),
        Answer::Received => page.put(b"(ok receive)"),
        Answer::Fed {
            burnt,
            oxygen,
            nitrate,
            warn,
        } => page.told(&[
            (b"(ok feed burnt ", burnt.0),
            (b" oxygen ", oxygen.0),
            (b" nitrate ", nitrate.0),
            (b" warn ", warn),
        ]),
        Answer::Settled => page.put(b"(ok settle)"),
        Answer::Returned { stripped } => page.told(&[(b"(ok return stripped ", stripped.0)]),
        Answer::Released => put_handed(page, b"(ok release", v),
        Answer::Recycled => page.put(b"(ok recycle)"),
        Answer::Drawn => put_handed(page, b"(ok draw", v),
        Answer::Accepted { n2 } => page.told(&[(b"(ok accept n2 ", n2.0)]),
    }
}

// A vector that is handed out, behind the beginning of its answer.
fn put_handed(page: &mut Page, head: &[u8], v: [u64; 13])
    requires { (HasRoom page.old 512) × (length head.now ≤ 11) }
    ensures { (Wrote page.old (handed_text head.now v) page.new) × (page.new.at ≤ page.old.at + 512) }
{
    page.put(head);
    page.columns(&ASM1_NAMES, &v, true);
    page.put(b")");
}

// A refusal, by its number.
fn put_refused(page: &mut Page, r: Refusal)
    requires { HasRoom page.old 512 }
    ensures { (Wrote page.old (refused_text (number r)) page.new) × (page.new.at ≤ page.old.at + 512) }
{
    page.told(&[(b"(no ", r.number())]);
}

// Writes the held line, without its newline; a short buffer is left as it is. 0, and test, page, writer: as in `write_answer`.
pub fn write_held(buf: &mut [u8], h: Result<HeldTotals, Refusal>) -> usize
    ensures { Answered buf.old (fitting (length buf.old) (held_text h)) result buf.new }
{
    if buf.len() < 512 {
        return 0;
    }
    let mut page = Page { bytes: buf, at: 0 };
    put_held(&mut page, h);
    page.at
}

// The held totals, or the refusal of a record that is itself refused.
fn put_held(page: &mut Page, h: Result<HeldTotals, Refusal>)
    requires { HasRoom page.old 512 }
    ensures { (Wrote page.old (held_text h) page.new) × (page.new.at ≤ page.old.at + 512) }
{
    match h {
        Ok(t) => page.told(&[
            (b"(held cod ", t.cod.0),
            (b" tkn ", t.tkn.0),
            (b" oxygen ", t.oxygen.0),
            (b" nitrate ", t.nitrate.0),
        ]),
        Err(r) => put_refused(page, r),
    }
}
