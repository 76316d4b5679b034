// New files, which take the name of the one that is written when they are whole.
ghost use Rattle.command_store.specs.Storing.{Held};

use crate::names::named;
use crate::opened::fill;
use std::fs::{File, remove_file, rename};
use std::io::{Error, ErrorKind};
use std::rt::Files;

// Replaces the last six bytes of a name by the digits of a number.
fn put_digits(name: &mut [u8], number: u32) {
    let mut rest = number;
    for i in 0..6 {
        if i < name.len() {
            let at = name.len() - 1 - i;
            name[at] = b'0' + (rest % 10) as u8;
        }
        rest /= 10;
    }
}

// Makes a file of this name, if no file has it. Its mode is that of any new file.
fn create<R: Files>(rt: &R, name: &[u8]) -> Result<R::File, Error> {
    File::create_new(rt, named(name)?)
}

// Makes a file of a name that no file has; the name ends in XXXXXX, which is replaced. Its mode is that of any new
// file.
fn make_new<R: Files>(rt: &R, name: &mut [u8]) -> Result<R::File, Error> {
    for number in 0..1000000 {
        put_digits(name, number);
        match create(rt, name) {
            Err(e) if e.kind() == ErrorKind::AlreadyExists => {}
            made => return made,
        }
    }
    Err(Error::from(ErrorKind::AlreadyExists))
}

// Removes a new file that did not become whole.
fn discard<R: Files>(rt: &R, name: &[u8]) {
    if let Ok(text) = named(name) {
        let _ = remove_file(rt, text);
    }
}

// Gives a new file the name of the one that is written.
fn put_in_place<R: Files>(rt: &R, name: &[u8], path: &[u8]) -> Result<(), Error> {
    rename(rt, named(name)?, named(path)?)
}

// Writes a new file of this name and gives it the name of the one that is written.
fn fill_new<R: Files>(
    rt: &R,
    file: R::File,
    name: &[u8],
    path: &[u8],
    bytes: &[u8],
) -> Result<usize, Error>
    ensures answer { Held result bytes.now }
{
    let n = fill(file, bytes)?;
    put_in_place(rt, name, path)?;
    Ok(n)
}

// Writes a new file of this name, and renames it when it is whole.
pub fn store_by<R: Files>(
    rt: &R,
    name: &mut [u8],
    path: &[u8],
    bytes: &[u8],
) -> Result<usize, Error>
    ensures answer { Held result bytes.now }
{
    let file = make_new(rt, name)?;
    let result = fill_new(rt, file, name, path, bytes);
    if result.is_err() {
        discard(rt, name);
    }
    result
}
