// The form of a call.
ghost use Rattle.std.specs.Prelude.{◌≡◌, false};
ghost use Rattle.reading.specs.Form.{line_of, bare, call_of, sludge_line, read_fields, numbered_by, form_by};
ghost use Rattle.reading.specs.Names.{names_of};

use crate::bytes::place;
use crate::fields::{Fields, read_fields};
use crate::names::Vector;
use crate::number::read_number;
use plant::{Call, Request};
use vectors::{Milligrams, Ticks};

// What a line asks: a call with its vectors, which are zero where it has none, or only a preview of it.
#[derive(Clone, Copy)]
pub struct Asked {
    pub request: Request,
    pub preview: bool,
}

// The form of a call inside its bracket.
pub fn read_form(t: &[u8]) -> Option<Asked>
    ensures { result ≡ form_by read_fields t.now }
{
    let k = place(t, b' ');
    let w = &t[..k];
    let rest = &t[k..];
    if w == b"receive".as_slice() {
        let f = read_fields(Vector::Sludge, rest)?;
        return Some(sludge_line(Call::Receive, f));
    }
    let u = rest.strip_prefix(b" ").unwrap_or(rest);
    if w == b"settle".as_slice() {
        let (gas, f) = read_numbered(Vector::Digester, u)?;
        return Some(call_line(Call::Settle(Milligrams(gas)), [0; 13], f.columns));
    }
    if w == b"accept".as_slice() {
        let (nitrite, f) = read_numbered(Vector::Sludge, u)?;
        return Some(sludge_line(Call::Accept(Ticks(nitrite)), f));
    }
    let n = read_number(u)?;
    call_of(w, n)
}

// A number and the fields of a vector behind it, as they stand behind a word and its space.
fn read_numbered(vector: Vector, u: &[u8]) -> Option<(u64, Fields)>
    ensures { result ≡ numbered_by read_fields (names_of vector) u.now }
{
    let k = place(u, b' ');
    let n = read_number(&u[..k])?;
    let f = read_fields(vector, &u[k..])?;
    Some((n, f))
}

// A call with an ASM1 vector. Its columns one by one: copy_from_slice and first_chunk were tried and proved, and measured
// as slower (docs/DECISIONS.md, Speed).
fn sludge_line(call: Call, f: Fields) -> Asked
    ensures { Some result ≡ sludge_line call f }
{
    let c = f.columns;
    let v = [
        c[0], c[1], c[2], c[3], c[4], c[5], c[6], c[7], c[8], c[9], c[10], c[11], c[12],
    ];
    call_line(call, v, [0; 26])
}

// The call that the word w stands for, with its number. A match on the word was tried and is no plainer: its last arm left 24
// goals to answer by hand where there were four words, one for each byte at which a word may end.
fn call_of(w: &[u8], k: u64) -> Option<Asked>
    ensures { result ≡ call_of w.now k }
{
    if w == b"feed".as_slice() {
        return Some(bare(Call::Feed(k)));
    }
    if w == b"return".as_slice() {
        return Some(bare(Call::Return(k)));
    }
    if w == b"release".as_slice() {
        return Some(bare(Call::Release(k)));
    }
    if w == b"recycle".as_slice() {
        return Some(bare(Call::Recycle(k)));
    }
    if w == b"draw".as_slice() {
        return Some(bare(Call::Draw(k)));
    }
    None
}

// A call with no vector.
fn bare(call: Call) -> Asked
    ensures { Some result ≡ bare call false }
{
    Asked {
        request: Request::from(call),
        preview: false,
    }
}

// A call with its vectors, and no preview.
fn call_line(call: Call, sludge: [u64; 13], digester: [u64; 26]) -> Asked
    ensures { Some result ≡ line_of call false sludge digester }
{
    Asked {
        request: Request {
            call,
            sludge,
            digester,
        },
        preview: false,
    }
}
