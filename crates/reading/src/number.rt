// Decimal numbers.
ghost use Rattle.std.specs.Prelude.{◌≡◌};
ghost use Rattle.reading.specs.Number.{read_after, read_number};

// The number that bytes stand for: digits with no leading zero, at most 2^64 - 1. No parse: it takes a plus sign and leading zeros. A match
// on slice patterns is no plainer: that its last arm has a byte stands in a fact alone whose name the prover may change.
pub fn read_number(s: &[u8]) -> Option<u64>
    ensures { result ≡ read_number s.now }
{
    if s.len() == 0 {
        return None;
    }
    if s[0] == b'0' {
        if 1 < s.len() {
            return None;
        }
    }
    digits(s)
}

// Digits alone.
fn digits(s: &[u8]) -> Option<u64>
    ensures { result ≡ read_after 0 s.now }
{
    let mut n: u64 = 0;
    for b in s {
        if !b.is_ascii_digit() {
            return None;
        }
        n = n.checked_mul(10)?.checked_add(u64::from(*b - b'0'))?;
    }
    Some(n)
}
