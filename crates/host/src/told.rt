// What a call tells by numbers, or its refusal. A closure that makes the numbers has a clause, since none is inferred for an array.
ghost use Rattle.std.specs.Prelude.{◌≡◌};
ghost use Rattle.host.specs.Calls.{number_in, told_in};

use refusals::Refusal;

// Tells the numbers, and gives 0; a refusal has zeros told, and gives its number.
pub fn tell<const N: usize>(told: &mut [u64; N], numbers: Result<[u64; N], Refusal>) -> u64
    ensures result { result ≡ number_in numbers.entry }
    ensures told { told.new ≡ told_in N numbers.entry }
{
    match numbers {
        Ok(n) => {
            *told = n;
            0
        }
        Err(refusal) => {
            told.fill(0);
            refusal.number()
        }
    }
}
