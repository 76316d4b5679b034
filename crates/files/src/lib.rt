// Whole files read into lent bytes.
#![tactic(auto)]

ghost use Rattle.std.specs.Prelude.{◌≡◌, length, IfOk};
ghost use Rattle.io.specs.Counts.{IsPrefixLen};
ghost use Rattle.files.specs.Files.{loaded_of};
ghost use Rattle.files.specs.declared.LoadError.TheVariants.{Unreadable};

use std::fs::File;
use std::io::{Error, ErrorKind, Read};
use std::rt::Files;

// As many zeros as the array is long.
pub fn zeros<const N: usize>() -> [u8; N]
    ensures answer { N ≡ length result }
{
    [0; N]
}

// 1,000,000 zeros, for a file.
pub fn buffer() -> [u8; 1000000]
    ensures answer { 1000000 ≡ length result }
{
    zeros::<1000000>()
}

// Why there is no result of reading a file.
#[derive(Clone, Copy)]
pub enum LoadError {
    // It cannot be opened, or reading it failed, for the reason that the system gave.
    Unreadable(Error),
    // It is longer than the lent bytes.
    TooLong,
}

impl From<Error> for LoadError {
    ghost from_gives = { λ e r. r ≡ Unreadable e };

    fn from(e: Error) -> LoadError {
        LoadError::Unreadable(e)
    }
}

// What a file is of which n bytes were read, and `more` behind them: it is whole where there are no more.
fn outcome(n: usize, more: usize) -> Result<usize, LoadError>
    ensures answer { result ≡ loaded_of n more }
{
    if more == 0 {
        Ok(n)
    } else {
        Err(LoadError::TooLong)
    }
}

// Reads until the lent bytes are full, the file ends or a read fails; the answer is how many bytes were read.
pub fn read_full<F: Read>(file: &mut F, out: &mut [u8]) -> usize
    ensures { IsPrefixLen result out.new }
{
    let mut done = 0;
    while done < out.len() {
        match file.read(&mut out[done..]) {
            Ok(0) | Err(_) => break,
            Ok(n) => done += n,
        }
    }
    done
}

// Reads to the end of an open file, into the start of the lent bytes; the answer is how many bytes it has.
pub fn load_open<F: Read>(file: &mut F, out: &mut [u8]) -> Result<usize, LoadError>
    ensures written { IfOk result (λ n. IsPrefixLen n out.new) }
{
    let n = read_full(file, out);
    let mut one = [0u8; 1];
    let more = file.read(&mut one)?;
    outcome(n, more)
}

// Reads the file of this name, as load_open.
pub fn load<R: Files>(rt: &R, path: &[u8], out: &mut [u8]) -> Result<usize, LoadError>
    ensures written { IfOk result (λ n. IsPrefixLen n out.new) }
{
    let Ok(name) = str::from_utf8(path) else {
        return Err(LoadError::Unreadable(Error::from(ErrorKind::InvalidFilename)));
    };
    let mut file = File::open(rt, name)?;
    load_open(&mut file, out)
}
