// A page: text into a lent buffer, each piece behind the one before.
ghost use Rattle.std.specs.Prelude.{◌≡◌, ◌+◌, ◌*◌, ◌≤◌, length};
ghost use Rattle.reading.specs.Number.{decimal};
ghost use Rattle.writing.specs.Answer.{labelled, told_text, column_text, column_or_none, columns_text};
ghost use Rattle.reading.specs.Names.{unpadded, unpadded_all};
ghost use Rattle.writing.specs.Page.{HasRoom, Wrote, parts_of, AllShort};

use reading::find_byte;

// A lent buffer, and the place behind what is written in it. The buffer is no array of a fixed length: where the length is a parameter,
// lending a part asks for a bound on it that no type gives.
#[derive(Drop)]
pub struct Page<'a> {
    pub bytes: &'a mut [u8],
    pub at: usize,
}

impl<'a> Page<'a> {
    // Bytes.
    #[tactic(auto, unfolding(crate::specs::Buffer::put_at))]
    pub fn put(&mut self, s: &[u8])
        requires { HasRoom self.old (length s.now) }
        ensures { Wrote self.old s.now self.new }
    {
        let end = self.at + s.len();
        self.bytes[self.at..end].copy_from_slice(s);
        self.at = end;
    }

    // A number's digits, of which there are at most twenty.
    fn number(&mut self, n: u64)
        requires { HasRoom self.old 20 }
        ensures { (Wrote self.old (decimal n) self.new) × (self.new.at ≤ self.old.at + 20) }
    {
        let mut text = [0u8; 20];
        let k = io::decimal(n, &mut text);
        self.put(&text[..k]);
    }

    // A label and a number.
    pub fn labelled(&mut self, label: &[u8], n: u64)
        requires { HasRoom self.old (length label.now + 20) }
        ensures { (Wrote self.old (labelled label.now n) self.new) × (self.new.at ≤ self.old.at + (length label.now + 20)) }
    {
        self.put(label);
        self.number(n);
    }

    // Numbers, each behind its label, and a bracket. As an array of K pairs it was tried: the borrow checker does not cover an array that
    // holds references and whose length is a const parameter.
    pub fn told(&mut self, parts: &[(&[u8], u64)])
        requires { (HasRoom self.old (40 * length parts.now + 1)) × AllShort parts.now }
        ensures { (Wrote self.old (told_text (parts_of parts.now)) self.new) × (self.new.at ≤ self.old.at + (40 * length parts.now + 1)) }
    {
        for part in parts {
            self.labelled(part.0, part.1);
        }
        self.put(b")");
    }

    // A column in brackets behind a space: a name and a number. The name is copied first: of bytes that might overlap the buffer the
    // compiler makes a call of memmove, which the archive for C would need from outside.
    pub fn column(&mut self, name: &[u8; 4], n: u64)
        requires { HasRoom self.old 28 }
        ensures { (Wrote self.old (column_text (unpadded name.now) n) self.new) × (self.new.at ≤ self.old.at + 28) }
    {
        self.put(b" (");
        let own = *name;
        let k = find_byte(&own, 0, b' ');
        self.put(&own[..k]);
        self.labelled(b" ", n);
        self.put(b")");
    }

    // The columns of a vector, each with its name; where zeros is false, those that are zero are left away. They go by their places:
    // of a `zip` the loop's invariant would speak of the iterator.
    pub fn columns<const N: usize>(&mut self, names: &[[u8; 4]; N], v: &[u64; N], zeros: bool)
        requires { HasRoom self.old (28 * N) }
        ensures { (Wrote self.old (columns_text zeros (unpadded_all names.now) v.now) self.new) × (self.new.at ≤ self.old.at + 28 * N) }
    {
        for c in 0..N {
            self.column_or_none(&names[c], v[c], zeros);
        }
    }

    // A column, left away where it is zero and zeros is false.
    fn column_or_none(&mut self, name: &[u8; 4], n: u64, zeros: bool)
        requires { HasRoom self.old 28 }
        ensures { (Wrote self.old (column_or_none zeros (unpadded name.now) n) self.new) × (self.new.at ≤ self.old.at + 28) }
    {
        if zeros || n != 0 {
            self.column(name, n);
        }
    }
}
