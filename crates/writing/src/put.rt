// Bytes in a lent buffer.
ghost use Rattle.std.specs.Prelude.{◌≡◌, length, take, drop};
ghost use Rattle.writing.specs.Buffer.{Put, fitted};

use crate::page::Page;

// The first n bytes of a buffer, or all of it where it has fewer; with an answer's count, the part that the answer fills.
// It is shared, so that no byte of the buffer can change on the way. The count comes from an answer: this function makes the slice of the
// two.
pub fn filled_part(buf: &[u8], n: usize) -> &[u8]
    ensures { (result.now ≡ take n buf.now) × (result.ref_ptr ≡ buf.entry.ref_ptr) }
{
    &buf[..n.min(buf.len())]
}

// The same part, and the bytes behind it.
pub fn split_filled(buf: &[u8], n: usize) -> (&[u8], &[u8])
    ensures part { (result.0.now ≡ take n buf.now) × (result.0.ref_ptr ≡ buf.entry.ref_ptr) }
    ensures behind { result.1.now ≡ drop n buf.now }
{
    (filled_part(buf, n), &buf[n.min(buf.len())..])
}

// Bytes where they fit; where they do not, the buffer is left as it is. The page is made here: the place is the session's, from block
// to block, and the buffer is lent anew.
pub fn put_fitting(buf: &mut [u8], at: usize, s: &[u8]) -> usize
    ensures { Put buf.old at (fitted (length buf.old) at s.now) result buf.new }
{
    if buf.len() < at {
        return at;
    }
    if buf.len() - at < s.len() {
        return at;
    }
    let mut page = Page { bytes: buf, at };
    page.put(s);
    page.at
}
