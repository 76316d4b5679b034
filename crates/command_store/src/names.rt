// Files by name: opened, and the path that a name leads to.
ghost use Rattle.std.specs.Prelude.{IfOk};
ghost use Rattle.io.specs.Counts.{IsPrefixLen};

use std::fs::{OpenOptions, canonicalize};
use std::io::{Error, ErrorKind};
use std::rt::Files;
use text::put;

// The name of a file as the system takes it.
pub fn named(name: &[u8]) -> Result<&str, Error> {
    str::from_utf8(name).map_err(|_| Error::from(ErrorKind::InvalidFilename))
}

// The path of the file of this name, by any way to it, at the start of the lent bytes.
pub fn path_of<R: Files + Alloc>(rt: &R, name: &[u8], out: &mut [u8]) -> Result<usize, Error>
    ensures past { IfOk result (λ n. IsPrefixLen n out.new) }
{
    let text = named(name)?;
    let path = canonicalize(rt, text)?;
    Ok(put(out, 0, path.as_str().as_bytes()))
}

// Opens the file of this name, which is there, to read and to write it; its bytes stay.
fn open_update<R: Files>(rt: &R, name: &[u8]) -> Result<R::File, Error> {
    let text = named(name)?;
    OpenOptions::new().read(true).write(true).open(rt, text)
}

// Opens the file of this name, which is there, to write behind its bytes.
pub fn open_append<R: Files>(rt: &R, name: &[u8]) -> Result<R::File, Error> {
    let text = named(name)?;
    OpenOptions::new().append(true).open(rt, text)
}

// The path of the file of this name, by any way to it, at the start of the lent bytes; the name itself where it
// cannot be opened.
pub fn real_name<R: Files + Alloc>(rt: &R, name: &[u8], out: &mut [u8]) -> Result<usize, Error>
    ensures past { IfOk result (λ n. IsPrefixLen n out.new) }
{
    match open_update(rt, name) {
        Ok(_) => path_of(rt, name, out),
        Err(_) => Ok(put(out, 0, name)),
    }
}
