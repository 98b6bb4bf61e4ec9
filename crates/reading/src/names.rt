// Column names: a table has four bytes a name, spaces behind a shorter one, and the column that a name stands for is its place there.
ghost use Rattle.std.specs.Prelude.{true, ◌≡◌};
ghost use Rattle.reading.specs.Text.{same_bytes};
ghost use Rattle.reading.specs.Names.{column_of, from_column, unpadded, unpadded_all, distinct};

use crate::bytes::place;

// The names of the columns of an ASM1 vector.
pub const ASM1_NAMES: [[u8; 4]; 13] = [
    *b"si  ", *b"ss  ", *b"xi  ", *b"xs  ", *b"xbh ", *b"xba ", *b"xp  ", *b"so  ", *b"sno ",
    *b"snh ", *b"snd ", *b"xnd ", *b"salk",
];

// The names of the columns of a digester vector.
pub const DIGESTER_NAMES: [[u8; 4]; 26] = [
    *b"si  ", *b"ssu ", *b"saa ", *b"sfa ", *b"sva ", *b"sbu ", *b"spro", *b"sac ", *b"sh2 ",
    *b"sch4", *b"xi  ", *b"xc  ", *b"xch ", *b"xpr ", *b"xli ", *b"xsu ", *b"xaa ", *b"xfa ",
    *b"xc4 ", *b"xpro", *b"xac ", *b"xh2 ", *b"sin ", *b"sic ", *b"co  ", *b"cn  ",
];

// Which vector a column belongs to.
#[derive(Clone, Copy)]
pub enum Vector {
    Sludge,
    Digester,
}

// A table of names in which none stands twice.
#[derive(Clone, Copy)]
pub struct Names<'a> {
    pub table: &'a [[u8; 4]],
    ghost once: { distinct (unpadded_all table.now) ≡ true },
}

impl<'a> Names<'a> {
    // The column of the name s, looked for at from and behind it.
    pub fn find(self, from: usize, s: &[u8]) -> Option<usize>
        ensures { result ≡ from_column from (column_of (unpadded_all self.entry.table.now) s.now) }
    {
        for c in from..self.table.len() {
            if is_name(&self.table[c], s) {
                return Some(c);
            }
        }
        None
    }
}

// Whether s is the name that the four bytes hold. The second byte tells most names apart.
fn is_name(name: &[u8; 4], s: &[u8]) -> bool
    ensures { result ≡ same_bytes s.now (unpadded name.now) }
{
    if 1 < s.len() {
        if name[1] != s[1] {
            return false;
        }
    }
    let k = place(name, b' ');
    s == &name[..k]
}
