// The actions on one record and on a set of records.
ghost use Rattle.std.specs.Prelude.{◌≡◌, ◌≤◌, length};
ghost use Rattle.answer.specs.Outcomes.{answer_of, output_of};
ghost use Rattle.record_tail.specs.Closing.{closed_with};
ghost use Rattle.record_check.specs.Parse.{parse};
ghost use Rattle.set_check.specs.Sets.{read_set};
ghost use Rattle.command_arguments.specs.declared.Action.TheVariants.{Viewing, WithTail, Collection};
ghost use Rattle.command_arguments.specs.Shapes.{shape_of, status_of};
ghost use Rattle.command_inputs.specs.Inputs.{From, FromWhole, Said};
ghost use Rattle.command_outputs.specs.Results.{Fails, FailsBy, WellOnly};
ghost use Rattle.command.specs.Acting.{Viewed, Closed, SetFails, Listed};

use command_arguments::numbers::GREATEST;
use command_arguments::{Action, Status, View};
use command_inputs::{Input, Number, load, load_whole, number_at, page};
use command_messages::system::print;
use command_messages::{Host, refuse, refuse_set};
use command_outputs::finish;
use command_view::put_view;
use record_tail::with_tail;
use set_check::check_set;
use set_lines::put_set;
use table::Table;

// Prints a view of a table.
fn print_view<R: Host>(rt: &R, v: View, t: Table) -> Status
    ensures past { status_of result ≤ 1 }
{
    let mut out = page();
    let n = put_view(&mut out, v, t);
    print(rt, &out[..n])
}

// Prints a view of the record in the bytes, or says its refusal. `l` is what was read of the record.
fn view_bytes<R: Host>(rt: &R, v: View, l: Input, bytes: &[u8]) -> Status
    requires { From (shape_of (Viewing v)).under l bytes.now }
    ensures answer { FailsBy (parse bytes.now) result }
    ensures past { WellOnly Viewed result }
{
    match record_check::load(bytes) {
        Err(x) => refuse(rt, x),
        Ok(t) => print_view(rt, v, t),
    }
}

// check FILE, show FILE, draw FILE
pub fn view_file<R: Host>(rt: &R, v: View) -> Status
    ensures answer { WellOnly Viewed result }
{
    let mut bytes = [0u8; 3866];
    let Some(l) = load(rt, Action::Viewing(v).shape().under, &mut bytes) else {
        return Status::Failed;
    };
    view_bytes(rt, v, l, &bytes[..l.size])
}

// The record in the bytes with another tail datum; the run fails where it is refused. `l` is what was read of the
// record.
fn close_bytes<R: Host>(rt: &R, l: Input, bytes: &[u8], datum: Number, out: &mut [u8]) -> Status
    requires { From (shape_of WithTail).under l bytes.now × Said (shape_of WithTail).number datum }
    ensures answer { Fails (answer_of (closed_with bytes.now datum.value (length out.old))) result }
    ensures written { out.new
        ≡ output_of (closed_with bytes.now datum.value (length out.old))
        out.old }
    ensures past { WellOnly Closed result }
{
    let a = Action::WithTail;
    let r = with_tail(bytes, datum.value, out);
    finish(rt, a, a.shape().written, r, out)
}

// with-tail RECORD DATUM OUT
pub fn close_file<R: Host>(rt: &R) -> Status
    ensures answer { WellOnly Closed result }
{
    let Some(datum) = number_at(rt, Action::WithTail, 3, GREATEST) else {
        return Status::Misused;
    };
    let mut bytes = [0u8; 3866];
    let Some(l) = load(rt, Action::WithTail.shape().under, &mut bytes) else {
        return Status::Failed;
    };
    let mut out = [0u8; 3865];
    close_bytes(rt, l, &bytes[..l.size], datum, &mut out)
}

// Prints a good set, or says the refusal of a bad one. `l` is what was read of the set.
fn tell_set<R: Host>(rt: &R, l: Input, set: &[u8]) -> Status
    requires { FromWhole (shape_of Collection).read l set.now }
    ensures answer { SetFails (read_set set.now) result }
    ensures past { WellOnly Listed result }
{
    match check_set(set) {
        Err(bad) => refuse_set(rt, bad.number, bad.refusal),
        Ok(n) => {
            let mut out = io::large_buffer();
            let size = put_set(&mut out, set, n);
            print(rt, &out[..size])
        }
    }
}

// set FILE
pub fn set_file<R: Host>(rt: &R) -> Status
    ensures answer { WellOnly Listed result }
{
    let mut bytes = files::buffer();
    let Some(l) = load_whole(rt, Action::Collection.shape().read, &mut bytes, 1000000) else {
        return Status::Failed;
    };
    tell_set(rt, l, &bytes[..l.size])
}
