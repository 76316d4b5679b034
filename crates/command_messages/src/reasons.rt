// Why a call of the system failed, as the system says it.
ghost use Rattle.io.specs.Counts.{IsPrefixLen};
ghost use Rattle.std.specs.Prelude.{◌≡◌, ◌≤◌, length};

use std::io::{Cursor, Error, Write};
use text::Writer;

// What std says of an error, at the start of the lent bytes.
fn put_error(out: &mut [u8], e: Error) -> usize
    ensures past { result ≤ length out.new }
{
    let most = out.len();
    let mut to = Cursor::new(out);
    let _ = write!(to, "{e}");
    let n = to.position() as usize;
    n.min(most)
}

// How many bytes of what std says are the system's text: std puts ` (os error N)` after it.
fn text_size(said: &[u8]) -> usize
    ensures past { result ≤ length said.now }
{
    match said.iter().rposition(|byte| *byte == b'(') {
        Some(n) => n.saturating_sub(1),
        None => said.len(),
    }
}

// The system's text for an error.
pub fn write_reason(to: &mut Writer, e: Error)
    ensures lent { to.new.out.ghost_name ≡ to.old.out.ghost_name }
    ensures past { IsPrefixLen to.new.at to.new.out.now }
    ensures kept { length to.new.out.now ≡ length to.old.out.now }
{
    let mut said = [0u8; 256];
    let n = put_error(&mut said, e);
    let size = if e.raw_os_error().is_some() {
        text_size(&said[..n])
    } else {
        n
    };
    to.put(&said[..size]);
}
