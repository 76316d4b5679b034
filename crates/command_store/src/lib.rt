// Results written to files. A result goes to a new file beside the one that is named, which is renamed when it is
// whole, so that a write that fails leaves the old file as it was. What has no bytes to lose (a pipe, a terminal, a
// device) is written as it stands.
#![tactic(auto)]

ghost use Rattle.std.specs.Prelude.{◌≡◌};
ghost use Rattle.io.specs.Counts.{IsPrefixLen};
ghost use Rattle.text.specs.Texts.{Added};
ghost use Rattle.command_store.specs.Storing.{Held, folder_of, aside_name};
ghost use Rattle.command_store.specs.declared.StoreError.TheVariants.{Unwritten};

mod fresh;
mod names;
mod opened;

use fresh::store_by;
use names::{open_append, path_of, real_name};
use opened::{fill, is_regular};
use std::io::{Error, ErrorKind};
use std::rt::Files;
use text::{is_same, put};

// Why a file is not written whole.
#[derive(Clone, Copy)]
pub enum StoreError {
    // It cannot be opened or made, or a write took too few, for the reason that the system gave.
    Unwritten(Error),
    // It is one of the files that the result is made of, and is left as it is.
    Source,
}

impl From<Error> for StoreError {
    ghost from_gives = { λ e r. r ≡ Unwritten e };

    fn from(e: Error) -> StoreError {
        StoreError::Unwritten(e)
    }
}

// How many bytes of a path name its folder, with the last /.
fn folder(path: &[u8]) -> usize
    ensures answer { result ≡ folder_of path.now }
    ensures past { IsPrefixLen result path.now }
{
    for n in (0..path.len()).rev() {
        if path[n] == b'/' {
            return n + 1;
        }
    }
    0
}

// The name of a new file in the folder of a path, in front.
fn put_aside(out: &mut [u8], path: &[u8]) -> usize
    ensures written { Added (aside_name path.now) 0 out.old out.new result }
{
    let k = folder(path);
    let at = put(out, 0, &path[..k]);
    put(out, at, b".sbc-XXXXXX")
}

// Writes the file of this name by way of a new file beside it.
fn store_aside<R: Files>(rt: &R, path: &[u8], bytes: &[u8]) -> Result<usize, StoreError>
    ensures answer { Held result bytes.now }
{
    let mut name = [0u8; 4160];
    let n = put_aside(&mut name, path);
    Ok(store_by(rt, &mut name[..n], path, bytes)?)
}

// Whether a name, unless it is empty, leads to the file of this path; true where there is no memory to tell. What the
// system has no path for (a pipe) is no such file.
fn leads_to<R: Files + Alloc>(rt: &R, name: &[u8], path: &[u8]) -> bool {
    if name.is_empty() {
        return false;
    }
    let mut real = io::buffer();
    match real_name(rt, name, &mut real) {
        Ok(n) => is_same(&real[..n], path),
        Err(e) => e.kind() == ErrorKind::OutOfMemory,
    }
}

// Writes the file of this name in place of its bytes. A link is followed to the file; where the system does not say its
// path, the file is left as it is.
fn store_over<R: Files + Alloc>(
    rt: &R,
    name: &[u8],
    first: &[u8],
    second: &[u8],
    bytes: &[u8],
) -> Result<usize, StoreError>
    ensures answer { Held result bytes.now }
{
    let mut real = io::buffer();
    let n = path_of(rt, name, &mut real)?;
    let path = &real[..n];
    if leads_to(rt, first, path) || leads_to(rt, second, path) {
        return Err(StoreError::Source);
    }
    store_aside(rt, path, bytes)
}

// Writes the file of this name, in place of one that is there, unless it is the first or the second file that the bytes
// are made of; these names are empty for none. The answer is how many bytes were taken: all of them.
pub fn store<R: Files + Alloc>(
    rt: &R,
    name: &[u8],
    first: &[u8],
    second: &[u8],
    bytes: &[u8],
) -> Result<usize, StoreError>
    ensures answer { Held result bytes.now }
{
    match open_append(rt, name) {
        Ok(mut file) => {
            if is_regular(&mut file) {
                return store_over(rt, name, first, second, bytes);
            }
            Ok(fill(file, bytes)?)
        }
        Err(e) if e.kind() == ErrorKind::NotFound => store_aside(rt, name, bytes),
        Err(e) => Err(StoreError::Unwritten(e)),
    }
}
