// One form a line: a call, or a preview of one.
ghost use Rattle.std.specs.Prelude.{◌≡◌};
ghost use Rattle.reading.specs.Form.{read_fields};
ghost use Rattle.reading.specs.Line.{in_brackets, call_by, preview_line, is_preview, read_line};

use crate::form::{Asked, read_form};

// A line without its newline. The form of a call is read at one place, whether a preview is around it or not: two calls of the reader were
// slower (docs/DECISIONS.md, Speed).
pub fn read_line(s: &[u8]) -> Option<Asked>
    ensures { result ≡ read_line s.now }
{
    let preview = is_preview(s);
    // by its places: what is around it is tested, and a strip would test it again
    let call = if preview { &s[9..s.len() - 1] } else { s };
    let asked = read_call(call)?;
    if preview {
        return preview_line(asked);
    }
    Some(asked)
}

// Whether a line is (preview FORM).
fn is_preview(s: &[u8]) -> bool
    ensures { result ≡ is_preview s.now }
{
    s.starts_with(b"(preview ") && is_bracketed(s)
}

// Whether a bracket is around s, which has at most 1,024 bytes.
fn is_bracketed(s: &[u8]) -> bool
    ensures { result ≡ in_brackets s.now }
{
    s.len() <= 1024 && matches!(s, [b'(', .., b')'])
}

// The form of a call in its brackets.
fn read_call(u: &[u8]) -> Option<Asked>
    ensures { result ≡ call_by read_fields u.now }
{
    match u {
        [_, t @ .., _] if is_bracketed(u) => read_form(t),
        _ => None,
    }
}

// A preview of the call on a line; a preview has none.
fn preview_line(a: Asked) -> Option<Asked>
    ensures { result ≡ preview_line (Some a) }
{
    if a.preview {
        return None;
    }
    Some(Asked { preview: true, ..a })
}
