// The check of refusal 11.
ghost use Rattle.std.specs.Prelude.{◌≡◌, List, ℕ, ◌<◌, length};
ghost use Rattle.answer.specs.FirstBad.{first_bad, all_below};
ghost use Rattle.answer.specs.Outcomes.{verdict_on};

use crate::Refusal;

// The greatest byte, or 0: for a bound above it no byte is bad.
fn greatest(bytes: &[u8]) -> u8
    ensures answer { (n : ℕ) → result < n → length bytes.now ≡ first_bad n bytes.now }
{
    let mut top = 0u8;
    for byte in bytes {
        top = top.max(*byte);
    }
    top
}

// The place of the first byte that is not below n, or the number of bytes, byte by byte.
fn find_bad(bytes: &[u8], n: usize) -> usize
    ensures answer { result ≡ first_bad n bytes.now }
{
    for (i, byte) in bytes.iter().enumerate() {
        if n <= *byte as usize {
            return i;
        }
    }
    bytes.len()
}

// How many bytes stand before the first that is not below n: all of them where there is none.
pub fn first_bad(bytes: &[u8], n: usize) -> usize
    ensures answer { result ≡ first_bad n bytes.now }
{
    if (greatest(bytes) as usize) < n {
        return bytes.len();
    }
    find_bad(bytes, n)
}

// Whether all bytes are below n: 11 with the place of the first that is not.
pub fn check_below(bytes: &[u8], n: usize) -> Result<(), Refusal>
    ensures answer { (xs : List ℕ) → verdict_on result xs ≡ all_below n bytes.now xs }
{
    let place = first_bad(bytes, n);
    if place < bytes.len() {
        return Err(Refusal::BadByte(place));
    }
    Ok(())
}
