// Results written: to the file that an action's argument names, or to standard output, which a file named - is.
#![tactic(auto)]

ghost use Rattle.std.specs.Prelude.{◌≡◌, ◌≤◌};
ghost use Rattle.io.specs.Counts.{IsPrefixLen};
ghost use Rattle.command_arguments.specs.Shapes.{shape_of, status_of};
ghost use Rattle.command_outputs.specs.Results.{Within, Fails, ended_by};

use answer::Refusal;
use command_arguments::{Action, Status};
use command_messages::arguments::{argument, argument_count, word};
use command_messages::system::{complain, print};
use command_messages::{Host, refuse, say};
use command_store::{StoreError, store};
use text::{is_same, put};

// The name of the file that argument i names, at the start of the lent bytes: none for 0, standard input's for -.
fn source<R: Host>(rt: &R, i: usize, out: &mut [u8]) -> usize
    ensures past { IsPrefixLen result out.new }
{
    if i == 0 {
        return put(out, 0, b"");
    }
    let n = word(rt, i, out);
    if is_same(&out[..n], b"-") {
        return put(out, 0, b"/dev/stdin");
    }
    n
}

// How a run ends whose result was written so to the file of this name. It says what went wrong.
fn ended<R: Host>(rt: &R, name: &[u8], s: Result<usize, StoreError>) -> Status
    ensures answer { result ≡ ended_by s }
{
    match s {
        Ok(_) => Status::Done,
        Err(StoreError::Unwritten(e)) => complain(rt, name, e),
        Err(StoreError::Source) => say(rt, name, b": it is read too, so it is left as it was"),
    }
}

// Writes the file of this name, unless it is one that the action read.
fn store_named<R: Host>(rt: &R, a: Action, name: &[u8], bytes: &[u8]) -> Status
    ensures past { status_of result ≤ 1 }
{
    if is_same(name, b"-") {
        return print(rt, bytes);
    }
    let mut first = io::buffer();
    let mut second = io::buffer();
    let n = source(rt, a.shape().under, &mut first);
    let k = source(rt, a.shape().read, &mut second);
    let s = store(rt, name, &first[..n], &second[..k], bytes);
    ended(rt, name, s)
}

// Writes the result of an action to the file that argument i names; to standard output where there is no such argument.
fn store_at<R: Host>(rt: &R, a: Action, i: usize, bytes: &[u8]) -> Status
    requires { i ≡ (shape_of a).written }
    ensures past { status_of result ≤ 1 }
{
    if argument_count(rt) <= i {
        return print(rt, bytes);
    }
    let mut name = io::buffer();
    match argument(rt, i, &mut name) {
        Ok(n) => store_named(rt, a, &name[..n], bytes),
        Err(e) => complain(rt, b"argument", e),
    }
}

// Says the refusal of a call, or writes its result, which is at the start of `out`, to the file that argument i
// names.
pub fn finish<R: Host>(rt: &R, a: Action, i: usize, r: Result<usize, Refusal>, out: &[u8]) -> Status
    requires i_value { i ≡ (shape_of a).written }
    requires within { Within r out.now }
    ensures answer { Fails r result }
    ensures past { status_of result ≤ 1 }
{
    match r {
        Err(x) => refuse(rt, x),
        Ok(n) => store_at(rt, a, i, &out[..n]),
    }
}
