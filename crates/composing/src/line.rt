// A call's line and its newline. They stand first in the lent buffer, and the bytes behind them keep their values.
ghost use Rattle.std.specs.Prelude.{false, ◌++◌, ◌≡◌, ◌+◌, ◌*◌, ◌≤◌, length, drop};
ghost use Rattle.reading.specs.Text.{ascii};
ghost use Rattle.reading.specs.Names.{unpadded_all};
ghost use Rattle.writing.specs.Page.{HasRoom, Wrote};
ghost use Rattle.writing.specs.Answer.{columns_text};
ghost use Rattle.composing.specs.Line.{call_text, entry_text};
ghost use Rattle.composing.specs.Written.{written_text, LineWritten};

use plant::{Call, Request};
use reading::{ASM1_NAMES, Asked, DIGESTER_NAMES};
use refusals::Refusal;
use writing::{Page, split_filled};

// Writes the line of a call with the vector that it takes, or of a preview of it, and a newline, and tells how many bytes there are; under
// a refusal the buffer is left as it is. Test, page, writer stand here as in writing's `write_answer`, for the reason given there.
pub fn write_line(buf: &mut [u8], asked: Asked) -> Result<usize, Refusal>
    ensures { LineWritten buf.old asked.preview asked.request result buf.new }
{
    if buf.len() < 1025 {
        return Err(Refusal::ShortBuffer);
    }
    let mut page = Page { bytes: buf, at: 0 };
    put_entry(&mut page, &asked);
    page.put(b"\n");
    Ok(page.at)
}

// The same, and hands back the part of the buffer that the line and its newline fill, shared, and the bytes behind it, as writing's
// `filled_answer` does.
pub fn filled_line<'a>(buf: &'a mut [u8], asked: Asked) -> (&'a [u8], &'a [u8])
    ensures part { (result.0.now ≡ written_text (length buf.old) asked.preview asked.request) × (result.0.ref_ptr ≡ buf.entry.ref_ptr) }
    ensures behind { result.1.now ≡ drop (length (written_text (length buf.old) asked.preview asked.request)) buf.old }
{
    let n = write_line(buf, asked).unwrap_or(0);
    split_filled(buf, n)
}

// A call, or a preview of it. It is lent, as in `put_call`: both vectors stand in it, and the copies of them took as long as the rest of the
// line of a call with a number.
fn put_entry(page: &mut Page, asked: &Asked)
    requires { HasRoom page.old 1024 }
    ensures { (Wrote page.old (entry_text asked.now.preview asked.now.request) page.new) × (page.new.at ≤ page.old.at + 1024) }
{
    if asked.preview {
        page.put(b"(preview ");
        put_call(page, &asked.request);
        page.put(b")");
        return;
    }
    put_call(page, &asked.request);
}

// A call in its brackets.
fn put_call(page: &mut Page, r: &Request)
    requires { HasRoom page.old 1000 }
    ensures { (Wrote page.old (call_text r.now.call r.now.sludge r.now.digester) page.new) × (page.new.at ≤ page.old.at + 1000) }
{
    match r.call {
        Call::Receive => {
            page.put(b"(receive");
            put_fields(page, &ASM1_NAMES, &r.sludge);
        }
        Call::Feed(k) => page.told(&[(b"(feed ", k)]),
        Call::Settle(g) => {
            page.labelled(b"(settle ", g.0);
            put_fields(page, &DIGESTER_NAMES, &r.digester);
        }
        Call::Return(k) => page.told(&[(b"(return ", k)]),
        Call::Release(k) => page.told(&[(b"(release ", k)]),
        Call::Recycle(k) => page.told(&[(b"(recycle ", k)]),
        Call::Draw(k) => page.told(&[(b"(draw ", k)]),
        Call::Accept(n) => {
            page.labelled(b"(accept ", n.0);
            put_fields(page, &ASM1_NAMES, &r.sludge);
        }
    }
}

// The columns of a vector that are not zero, and a bracket.
fn put_fields<const N: usize>(page: &mut Page, names: &[[u8; 4]; N], v: &[u64; N])
    requires { HasRoom page.old (28 * N + 1) }
    ensures text { Wrote page.old (columns_text false (unpadded_all names.now) v.now ++ ascii ")") page.new }
    ensures bound { page.new.at ≤ page.old.at + (28 * N + 1) }
{
    page.columns(names, v, false);
    page.put(b")");
}
