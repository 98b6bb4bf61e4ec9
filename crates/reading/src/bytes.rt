// Bytes: searching.
ghost use Rattle.std.specs.Prelude.{◌≡◌, ◌+◌, ◌≤◌, length, drop};
ghost use Rattle.reading.specs.Text.{up_to};

use memchr::memchr;

// The place of the first b at from or behind it, or the length where there is none; from itself where that is behind the end. With its
// place, since lines goes through a block by it, and total (docs/DECISIONS.md, Crates of text).
pub fn find_byte(s: &[u8], from: usize, b: u8) -> usize
    ensures first_place { result ≡ from + length (up_to b (drop from s.now)) }
    ensures in_bounds { from ≤ length s.now → result ≤ length s.now }
{
    if s.len() < from {
        return from;
    }
    from + place(&s[from..], b)
}

// The place of the first b, or the length where there is none, by the library's memchr: the search by the slice's position was measured as
// slower (docs/DECISIONS.md, Speed).
pub fn place(s: &[u8], b: u8) -> usize
    ensures { (result ≡ length (up_to b s.now)) × (result ≤ length s.now) }
{
    memchr(b, s).unwrap_or(s.len())
}
