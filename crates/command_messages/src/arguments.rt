// The arguments as the system has them.
ghost use Rattle.io.specs.Counts.{IsPrefixLen};
ghost use Rattle.std.specs.Prelude.{IfOk};

use std::env::{Env, FillError};
use std::io::Error;

// What the system says where there is no such argument, and where one is longer than there is room for: EINVAL and
// ENAMETOOLONG.
const MISSING: i32 = 22;

const TOO_LONG: i32 = 36;

// Argument i, at the start of the lent bytes; the answer is how many bytes it has.
pub fn argument<R: Env>(rt: &R, i: usize, out: &mut [u8]) -> Result<usize, Error>
    ensures past { IfOk result (λ n. IsPrefixLen n out.new) }
{
    rt.arg(i, out).map_err(|e| match e {
        FillError::TooLong => Error::from_raw_os_error(TOO_LONG),
        FillError::NotPresent => Error::from_raw_os_error(MISSING),
    })
}

// As argument, and no bytes of one that is missing or too long.
pub fn word<R: Env>(rt: &R, i: usize, out: &mut [u8]) -> usize
    ensures past { IsPrefixLen result out.new }
{
    argument(rt, i, out).unwrap_or(0)
}

// How many arguments there are, with the name of the command.
pub fn argument_count<R: Env>(rt: &R) -> usize {
    let mut first = [0u8; 1];
    for i in 0..usize::MAX {
        if matches!(rt.arg(i, &mut first), Err(FillError::NotPresent)) {
            return i;
        }
    }
    usize::MAX
}
