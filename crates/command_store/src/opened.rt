// Open files: written to the end, and seen to be kept.
ghost use Rattle.std.specs.Prelude.{◌≡◌, ◌≤◌, length, IfOk};
ghost use Rattle.command_store.specs.Storing.{Held};

use std::fs::OpenFile;
use std::io::{Error, ErrorKind, Seek, SeekFrom, Write};

// What a system says that cannot keep what is written to a file, as it cannot of a pipe: EINVAL.
const NOTHING_TO_KEEP: i32 = 22;

// One write from the front; the answer is how many bytes were taken.
fn write_some<F: Write>(file: &mut F, bytes: &[u8]) -> Result<usize, Error>
    ensures past { IfOk result (λ n. n ≤ length bytes.now) }
{
    file.write(bytes)
}

// Writes until all is taken; it fails where a write takes nothing. The answer is how many bytes were taken.
fn write_bytes<F: Write>(file: &mut F, bytes: &[u8]) -> Result<usize, Error>
    ensures past { IfOk result (λ n. n ≡ length bytes.now) }
{
    let mut done = 0;
    while done < bytes.len() {
        let n = write_some(file, &bytes[done..])?;
        if n == 0 {
            return Err(Error::from(ErrorKind::WriteZero));
        }
        done += n;
    }
    Ok(done)
}

// Sees that what was written has reached the device, if there is one.
fn keep<F: OpenFile>(file: &F) -> Result<(), Error> {
    match file.sync_all() {
        Err(e) if e.raw_os_error() == Some(NOTHING_TO_KEEP) => Ok(()),
        kept => kept,
    }
}

// Writes an open file and closes it; the answer is how many bytes were taken.
pub fn fill<F: Write + OpenFile + Drop>(mut file: F, bytes: &[u8]) -> Result<usize, Error>
    ensures answer { Held result bytes.now }
{
    let n = write_bytes(&mut file, bytes)?;
    keep(&file)?;
    Ok(n)
}

// Whether an open file is one whose bytes can be lost: it has some, or its length can be set.
pub fn is_regular<F: Seek + OpenFile>(file: &mut F) -> bool {
    match file.seek(SeekFrom::End(0)) {
        Ok(size) => size > 0 || file.set_len(0).is_ok(),
        Err(_) => false,
    }
}
