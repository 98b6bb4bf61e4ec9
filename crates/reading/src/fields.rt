// Fields in brackets.
ghost use Rattle.std.specs.Prelude.{◌≡◌};
ghost use Rattle.reading.specs.Names.{names_of, unpadded_all};
ghost use Rattle.reading.specs.Form.{read_field, read_piece, no_fields, field_from, read_fields};

use crate::names::{ASM1_NAMES, DIGESTER_NAMES, Names, Vector};
use crate::number::read_number;
use memchr::{memchr, memchr_iter};

// A column and its number.
#[derive(Clone, Copy)]
pub struct Field {
    pub column: usize,
    pub number: u64,
}

// The fields read so far, and which columns were named, since document 01 has them marked as seen. Two arrays:
// must-fail/order_and_mark_blind.edit leaves a column unmarked whose number stands, which one array of options cannot say.
#[derive(Clone, Copy)]
pub struct Fields {
    pub columns: [u64; 26],
    pub seen: [bool; 26],
}

// None or more fields of a vector, each behind a space, in the order of its columns. A method of Vector that gives the names was tried and
// proved, and a session took 1 % more instructions.
pub fn read_fields(v: Vector, s: &[u8]) -> Option<Fields>
    ensures { result ≡ read_fields (names_of v) s.now }
{
    match v {
        Vector::Sludge => fields_in(Names { table: &ASM1_NAMES }, s),
        Vector::Digester => fields_in(
            Names {
                table: &DIGESTER_NAMES,
            },
            s,
        ),
    }
}

// The same by a table of names: each piece goes up to a closing bracket, and nothing stands behind the last one. A name is looked up from
// the column behind the last one; its column gets its number and is marked as seen.
fn fields_in(names: Names, s: &[u8]) -> Option<Fields>
    ensures { result ≡ read_fields (unpadded_all names.entry.table.now) s.now }
{
    let mut f = no_fields();
    let mut next = 0;
    let mut i = 0;
    for e in memchr_iter(b')', s) {
        let x = read_piece(names, next, &s[i..e])?;
        let c = x.column;
        if *f.seen.get(c)? {
            return None;
        }
        f.columns[c] = x.number;
        f.seen[c] = true;
        next = c + 1;
        i = e + 1;
    }
    if i < s.len() {
        return None;
    }
    Some(f)
}

// No field: no column is named yet. By its definition's word and not as a Default, whose clause would say no more.
fn no_fields() -> Fields
    ensures { result ≡ no_fields }
{
    Fields {
        columns: [0; 26],
        seen: [false; 26],
    }
}

// A space, an opening bracket and a field whose column is from or behind it.
fn read_piece(names: Names, from: usize, s: &[u8]) -> Option<Field>
    ensures { result ≡ field_from from (read_piece (unpadded_all names.entry.table.now) s.now) }
{
    read_field(names, from, s.strip_prefix(b" (")?)
}

// A name, a space and a number.
fn read_field(names: Names, from: usize, s: &[u8]) -> Option<Field>
    ensures { result ≡ field_from from (read_field (unpadded_all names.entry.table.now) s.now) }
{
    let k = memchr(b' ', s)?;
    let column = names.find(from, &s[..k])?;
    let number = read_number(&s[k + 1..])?;
    Some(Field { column, number })
}
