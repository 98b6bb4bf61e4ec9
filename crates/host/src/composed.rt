// Calls as lines: each writes the line of a call, or of its preview where preview is not 0, and a newline. It gives how many bytes there
// are, none under refusal 12.
ghost use Rattle.vectors.specs.Units.{milligrams, ticks};
ghost use Rattle.plant.specs.Calls.{receiving, feeding, settling, returning, releasing, recycling, drawing, accepting};
ghost use Rattle.host.specs.Calls.{Composed};

use crate::request::{accepting, receiving, settling};
use plant::{Call, Request};
use reading::Asked;

// A receive.
#[unsafe(no_mangle)]
pub extern "C" fn jilghvani_write_receive(v: &[u64; 13], preview: u64, buf: &mut [u8]) -> usize
    ensures { Composed (receiving v.now) preview buf.old result buf.new }
{
    written(receiving(v), preview, buf)
}

// A feed.
#[unsafe(no_mangle)]
pub extern "C" fn jilghvani_write_feed(k: u64, preview: u64, buf: &mut [u8]) -> usize
    ensures { Composed (feeding k) preview buf.old result buf.new }
{
    written(Request::from(Call::Feed(k)), preview, buf)
}

// A settle.
#[unsafe(no_mangle)]
pub extern "C" fn jilghvani_write_settle(
    gas: u64,
    d: &[u64; 26],
    preview: u64,
    buf: &mut [u8],
) -> usize
    ensures { Composed (settling (milligrams gas) d.now) preview buf.old result buf.new }
{
    written(settling(gas, d), preview, buf)
}

// A return.
#[unsafe(no_mangle)]
pub extern "C" fn jilghvani_write_return(k: u64, preview: u64, buf: &mut [u8]) -> usize
    ensures { Composed (returning k) preview buf.old result buf.new }
{
    written(Request::from(Call::Return(k)), preview, buf)
}

// A release.
#[unsafe(no_mangle)]
pub extern "C" fn jilghvani_write_release(k: u64, preview: u64, buf: &mut [u8]) -> usize
    ensures { Composed (releasing k) preview buf.old result buf.new }
{
    written(Request::from(Call::Release(k)), preview, buf)
}

// A recycle.
#[unsafe(no_mangle)]
pub extern "C" fn jilghvani_write_recycle(k: u64, preview: u64, buf: &mut [u8]) -> usize
    ensures { Composed (recycling k) preview buf.old result buf.new }
{
    written(Request::from(Call::Recycle(k)), preview, buf)
}

// A draw.
#[unsafe(no_mangle)]
pub extern "C" fn jilghvani_write_draw(k: u64, preview: u64, buf: &mut [u8]) -> usize
    ensures { Composed (drawing k) preview buf.old result buf.new }
{
    written(Request::from(Call::Draw(k)), preview, buf)
}

// An accept.
#[unsafe(no_mangle)]
pub extern "C" fn jilghvani_write_accept(
    v: &[u64; 13],
    n: u64,
    preview: u64,
    buf: &mut [u8],
) -> usize
    ensures { Composed (accepting v.now (ticks n)) preview buf.old result buf.new }
{
    written(accepting(v, n), preview, buf)
}

// The line of a request; the preview is a number because C asks for it so. Inline, so that the request is built where its line is written,
// and its two vectors are not copied.
#[inline]
fn written(request: Request, preview: u64, buf: &mut [u8]) -> usize
    ensures { Composed request preview buf.old result buf.new }
{
    let asked = Asked {
        request,
        preview: preview != 0,
    };
    composing::write_line(buf, asked).unwrap_or(0)
}
