// What the arguments say: numbers, and files and standard input read into lent bytes. A file named - is standard input.
// Each answer says which argument it was read from.
#![tactic(auto)]

ghost use Rattle.std.specs.Prelude.{◌≡◌, true, false, ◌≤◌, ◌<◌, length, IfOk, IfSome};
ghost use Rattle.io.specs.Counts.{IsPrefixLen};
ghost use Rattle.command_arguments.specs.Shapes.{shape_of};
ghost use Rattle.command_arguments.specs.declared.Status.TheVariants.{Misused};
ghost use Rattle.command_inputs.specs.Inputs.{input_of};

mod jobs;
mod numbers;

use command_arguments::{Action, Status};
use command_messages::arguments::{argument, word};
use command_messages::system::complain;
use command_messages::usage::misused_word;
use command_messages::{Host, say_too_long};
use files::{LoadError, zeros};
pub use jobs::{Numbers, numbers_said};
pub use numbers::{Number, number_at};
use text::is_same;

// What was read of a file: how many of the lent bytes it filled, whether the file has more bytes than were lent, and the
// argument that names it.
#[derive(Clone, Copy)]
pub struct Input {
    pub more: bool,
    pub size: usize,
    pub at: usize,
}

// 1,000,015 zeros: room for the words of 1,000,000 blocks.
pub fn recording() -> [u8; 1000015]
    ensures answer { 1000015 ≡ length result }
{
    zeros::<1000015>()
}

// 300,000 zeros, for a text.
pub fn page() -> [u8; 300000]
    ensures answer { 300000 ≡ length result }
{
    zeros::<300000>()
}

// Whether argument i is -.
fn is_dash<R: Host>(rt: &R, i: usize) -> bool {
    let mut name = io::buffer();
    let n = word(rt, i, &mut name);
    is_same(&name[..n], b"-")
}

// Whether the record of an action and the file it reads both are standard input, which can be read only once.
pub fn is_twice<R: Host>(rt: &R, a: Action) -> bool
    ensures answer { result ≡ true → (0 < (shape_of a).under) × (0 < (shape_of a).read) }
{
    let shape = a.shape();
    shape.under != 0 && shape.read != 0 && is_dash(rt, shape.under) && is_dash(rt, shape.read)
}

// Says that only one file can be standard input, and how an action is used.
pub fn misused_twice<R: Host>(rt: &R, a: Action) -> Status
    ensures answer { result ≡ Misused }
{
    misused_word(rt, a, b"-", b": only one file can be standard input")
}

// What was read of the file that argument i names, with so much room, if it was read.
fn input_of(i: usize, room: usize, l: Result<usize, LoadError>) -> Option<Input>
    ensures answer { result ≡ input_of i room l }
    ensures past { IfSome result (λ r. r.at ≡ i) }
{
    match l {
        Ok(size) => Some(Input {
            more: false,
            size,
            at: i,
        }),
        Err(LoadError::TooLong) => Some(Input {
            more: true,
            size: room,
            at: i,
        }),
        Err(LoadError::Unreadable(_)) => None,
    }
}

// Reads the file of this name. It says what goes wrong.
fn load_from<R: Host>(rt: &R, name: &[u8], out: &mut [u8]) -> Result<usize, LoadError>
    ensures past { IfOk result (λ n. IsPrefixLen n out.new) }
{
    if is_same(name, b"-") {
        files::load_open(&mut rt.reader(), out)
    } else {
        files::load(rt, name, out)
    }
}

// Reads the file of this name, which is argument i, if it can be read. It says what goes wrong.
fn load_named<R: Host>(rt: &R, i: usize, name: &[u8], out: &mut [u8]) -> Option<Input>
    ensures answer { IfSome result (λ r. r.at ≡ i) }
    ensures past { IfSome result (λ r. IsPrefixLen r.size out.new) }
{
    let room = out.len();
    let l = load_from(rt, name, out);
    if let Err(LoadError::Unreadable(e)) = l {
        complain(rt, name, e);
    }
    input_of(i, room, l)
}

// Reads the file that argument i names, if it can be read. It says what goes wrong.
pub fn load<R: Host>(rt: &R, i: usize, out: &mut [u8]) -> Option<Input>
    ensures answer { IfSome result (λ r. r.at ≡ i) }
    ensures past { IfSome result (λ r. IsPrefixLen r.size out.new) }
{
    let mut name = io::buffer();
    match argument(rt, i, &mut name) {
        Ok(n) => load_named(rt, i, &name[..n], out),
        Err(e) => {
            complain(rt, b"argument", e);
            None
        }
    }
}

// Says that the file that argument i names has too many bytes.
fn tell_too_long<R: Host>(rt: &R, i: usize, most: usize) {
    let mut name = io::buffer();
    let n = word(rt, i, &mut name);
    say_too_long(rt, &name[..n], most);
}

// As load, and a file of more bytes than `most` is too long.
pub fn load_whole<R: Host>(rt: &R, i: usize, out: &mut [u8], most: usize) -> Option<Input>
    ensures answer { IfSome result (λ r. r.at ≡ i) }
    ensures past { IfSome result (λ r. IsPrefixLen r.size out.new × (r.more ≡ false) × (r.size ≤ most)) }
{
    let r = load(rt, i, out)?;
    if r.more || most < r.size {
        tell_too_long(rt, i, most);
        return None;
    }
    Some(r)
}
