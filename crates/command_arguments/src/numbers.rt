// Numbers as arguments say them.
ghost use Rattle.std.specs.Prelude.{◌≡◌, ◌≤◌, IfSome};
ghost use Rattle.command_arguments.specs.Parsing.{as_digit, parsed};

use crate::NumberError;

// The greatest number that is read: above every field, count and bit number that is taken.
pub const GREATEST: usize = 9999999;

// The value of a digit; no other byte has one.
fn digit(byte: u8) -> Option<usize>
    ensures answer { result ≡ as_digit byte }
    ensures past { IfSome result (λ d. d ≤ 9) }
{
    if byte.is_ascii_digit() {
        Some((byte - b'0') as usize)
    } else {
        None
    }
}

// The number that a text says, unless it is above 9,999,999. While it is read, a greater one is held as 10,000,000,
// which is above the greatest too.
pub fn parse(text: &[u8]) -> Result<usize, NumberError>
    ensures answer { result ≡ parsed text.now }
{
    if text.is_empty() {
        return Err(NumberError::Wrong);
    }
    let mut number: usize = 0;
    for byte in text {
        let Some(value) = digit(*byte) else {
            return Err(NumberError::Wrong);
        };
        number = (number * 10 + value).min(GREATEST + 1);
    }
    if number <= GREATEST {
        Ok(number)
    } else {
        Err(NumberError::Above)
    }
}
