// What the command says on standard error, and how a run ends that says it.
#![tactic(auto)]

ghost use Rattle.std.specs.Prelude.{◌≡◌, ◌≤◌};
ghost use Rattle.text.specs.Texts.{Added};
ghost use Rattle.command_arguments.specs.Shapes.{status_of};
ghost use Rattle.command_messages.specs.Sayings.{saying, set_saying};
ghost use Rattle.command_arguments.specs.declared.Status.TheVariants.{Failed};

pub mod arguments;
mod host;
mod reasons;
mod recorded;
pub mod system;
pub mod usage;

use crate::system::print;
use answer::Refusal;
use command_arguments::Status;
pub use host::Host;
use sentences::write_sentence;
use text::Writer;
use view_refusals::{write_refusal, write_refusal_line};

// What is said of a refusal.
fn write_saying(to: &mut Writer, r: Refusal)
    ensures lent { to.new.out.ghost_name ≡ to.old.out.ghost_name }
    ensures written { Added (saying r) to.old.at to.old.out.now to.new.out.now to.new.at }
{
    to.put(b"sbc: ");
    write_refusal_line(to, r);
}

// What is said of the refusal of a set.
fn write_set_saying(to: &mut Writer, i: usize, r: Refusal)
    ensures lent { to.new.out.ghost_name ≡ to.old.out.ghost_name }
    ensures written { Added (set_saying i r) to.old.at to.old.out.now to.new.out.now to.new.at }
{
    to.put(b"sbc: ");
    write_refusal(to, r);
    write_sentence(to, b", at record #\n", &[i]);
}

// Where a text is said.
#[derive(Clone, Copy)]
pub enum Outlet {
    Output,
    Errors,
}

// Writes a text; the run fails where not all of it was written.
fn tell_text<R: Host>(rt: &R, to: Outlet, text: &[u8]) -> Status
    ensures past { status_of result ≤ 1 }
{
    match to {
        Outlet::Output => print(rt, text),
        Outlet::Errors => match rt.tell(text) {
            Ok(()) => Status::Done,
            Err(_) => Status::Failed,
        },
    }
}

// Says a line; the run fails.
fn tell<R: Host>(rt: &R, line: &[u8]) -> Status
    ensures answer { result ≡ Failed }
{
    let _ = rt.tell(line);
    Status::Failed
}

// Says a refusal.
pub fn refuse<R: Host>(rt: &R, r: Refusal) -> Status
    ensures answer { result ≡ Failed }
{
    let mut line = [0u8; 256];
    let mut writer = Writer::new(&mut line, 0);
    write_saying(&mut writer, r);
    let n = writer.at;
    tell(rt, &line[..n])
}

// Says the refusal of a set.
pub fn refuse_set<R: Host>(rt: &R, i: usize, r: Refusal) -> Status
    ensures answer { result ≡ Failed }
{
    let mut line = [0u8; 256];
    let mut writer = Writer::new(&mut line, 0);
    write_set_saying(&mut writer, i, r);
    let n = writer.at;
    tell(rt, &line[..n])
}

// Says what is wrong with what is named.
pub fn say<R: Host>(rt: &R, name: &[u8], what: &[u8]) -> Status
    ensures answer { result ≡ Failed }
{
    let mut line = [0u8; 4352];
    let mut writer = Writer::new(&mut line, 0);
    writer.put(b"sbc: ");
    writer.put(name);
    writer.put(what);
    writer.put(b"\n");
    let n = writer.at;
    tell(rt, &line[..n])
}

// Says that what is named has more bytes than are taken.
pub fn say_too_long<R: Host>(rt: &R, name: &[u8], most: usize) -> Status
    ensures answer { result ≡ Failed }
{
    let mut what = [0u8; 64];
    let mut writer = Writer::new(&mut what, 0);
    write_sentence(&mut writer, b": longer than # bytes", &[most]);
    let n = writer.at;
    say(rt, name, &what[..n])
}
