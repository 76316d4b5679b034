// Standard output, and what the system says of a call that failed.
ghost use Rattle.std.specs.Prelude.{◌≡◌, ◌≤◌};
ghost use Rattle.command_arguments.specs.Shapes.{status_of};
ghost use Rattle.command_arguments.specs.declared.Status.TheVariants.{Failed};

use crate::reasons::write_reason;
use crate::{Host, tell};
use command_arguments::Status;
use std::io::Error;
use text::Writer;

// Says why a call of the system failed on what is named.
pub fn complain<R: Host>(rt: &R, name: &[u8], e: Error) -> Status
    ensures answer { result ≡ Failed }
{
    let mut line = [0u8; 4608];
    let mut writer = Writer::new(&mut line, 0);
    writer.put(b"sbc: ");
    writer.put(name);
    writer.put(b": ");
    write_reason(&mut writer, e);
    writer.put(b"\n");
    let n = writer.at;
    tell(rt, &line[..n])
}

// Writes to standard output.
pub fn print<R: Host>(rt: &R, bytes: &[u8]) -> Status
    ensures past { status_of result ≤ 1 }
{
    match rt.write_all(bytes) {
        Ok(()) => Status::Done,
        Err(e) => complain(rt, b"standard output", e),
    }
}
