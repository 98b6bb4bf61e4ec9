// One value or limit: the floor of it times a scale, by its bits.
ghost use Rattle.std.specs.Prelude.{◌≡◌, ◌*◌, ◌/◌, ◌^◌, ◌≤◌, ◌<◌};
ghost use Rattle.sheets.specs.Value.{counted_of, capped, size_of};

use refusals::Refusal;

// How a column counts: its counts to the gram or to the mole, and its ceiling.
#[derive(Clone, Copy)]
pub struct Scale {
    pub per_unit: u64,
    pub ceiling: u64,
    pub ghost bound: { per_unit ≤ 10000000 },
}

impl Scale {
    // Refusals 13 and 14. A value below zero is not at least zero, so that the bits that are read are those of a number or of minus zero.
    // std has no method for the exponent and the digits of a float, so that they are taken off the bits.
    pub fn count(self, x: f32) -> Result<u64, Refusal>
        ensures { result ≡ counted_of self.per_unit self.ceiling x }
    {
        if x.is_finite() {
            if x >= 0.0 {
                let bits = x.to_bits();
                let field = bits % 0x80000000 / 0x800000;
                let digits = bits % 0x800000;
                let (m, k) = parts(field, digits);
                return self.count_size(m, k);
            }
        }
        Err(Refusal::NoAmount)
    }

    // m × 2^k of the smallest values, of which 2^149 are 1.
    fn count_size(self, m: u32, k: u32) -> Result<u64, Refusal>
        requires { m < 16777216 }
        ensures { result ≡ capped self.ceiling (m * 2 ^ k * self.per_unit / 2 ^ 149) }
    {
        let product = u64::from(m) * self.per_unit;
        if k < 149 {
            let n = shifted_down(product, 149 - k);
            return self.at_most(n);
        }
        self.shifted_up(product, k - 149)
    }

    // A count, where it is not above the ceiling.
    fn at_most(self, n: u64) -> Result<u64, Refusal>
        ensures { result ≡ capped self.ceiling n }
    {
        if n <= self.ceiling {
            return Ok(n);
        }
        Err(Refusal::CountAbove)
    }

    // n × 2^by, where it is not above the ceiling.
    fn shifted_up(self, n: u64, by: u32) -> Result<u64, Refusal>
        ensures { result ≡ capped self.ceiling (n * 2 ^ by) }
    {
        if n <= shifted_down(self.ceiling, by) {
            return Ok(n.checked_shl(by).unwrap_or(0));
        }
        Err(Refusal::CountAbove)
    }
}

// m and k of m × 2^k, by the exponent's field and the digits below the leading one, which a field of 0 has not.
fn parts(field: u32, digits: u32) -> (u32, u32)
    requires { digits < 8388608 }
    ensures size { result.0 * 2 ^ result.1 ≡ size_of field digits }
    ensures digits { result.0 < 16777216 }
{
    if field == 0 {
        return (digits, 0);
    }
    (8388608 + digits, field - 1)
}

// The floor of n / 2^by.
fn shifted_down(n: u64, by: u32) -> u64
    ensures { result ≡ n / 2 ^ by }
{
    n.checked_shr(by).unwrap_or(0)
}
