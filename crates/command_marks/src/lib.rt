// What encoding or decoding came to, written; the marks among decoded blocks are counted and said.
#![tactic(auto)]

ghost use Rattle.std.specs.Prelude.{◌≡◌, ◌≤◌};
ghost use Rattle.laws.specs.Sums.{times};
ghost use Rattle.text.specs.Texts.{Added};
ghost use Rattle.command_arguments.specs.Shapes.{status_of};
ghost use Rattle.command_outputs.specs.Results.{Within, Fails};
ghost use Rattle.command_marks.specs.Marking.{marks_line};

use answer::Refusal;
use command_arguments::{Action, Status, Way};
use command_messages::Host;
use command_outputs::finish;
use sentences::write_sentence;
use text::Writer;

// How many blocks are this mark.
fn count_marks(blocks: &[u8], mark: u8) -> usize
    ensures answer { result ≡ times mark blocks.now }
{
    let mut n: usize = 0;
    for block in blocks {
        n += usize::from(mark == *block);
    }
    n
}

// How many of the blocks are marked, and how many with each mark.
fn write_marks(to: &mut Writer, blocks: &[u8])
    ensures lent { to.new.out.ghost_name ≡ to.old.out.ghost_name }
    ensures written { Added (marks_line blocks.now) to.old.at to.old.out.now to.new.out.now to.new.at }
{
    let before = count_marks(blocks, 254);
    let ahead = count_marks(blocks, 255);
    write_sentence(
        to,
        b"sbc: # of # blocks marked: # for the words up to it (254), # for the words ahead (255)\n",
        &[before + ahead, blocks.len(), before, ahead],
    );
}

// Says how many blocks are marked.
fn say_marks<R: Host>(rt: &R, blocks: &[u8]) {
    let mut line = [0u8; 192];
    let mut writer = Writer::new(&mut line, 0);
    write_marks(&mut writer, blocks);
    let n = writer.at;
    let _ = rt.tell(&line[..n]);
}

// Says how many blocks of a decoding are marked.
fn tell_marks<R: Host>(rt: &R, w: Way, r: Result<usize, Refusal>, out: &[u8])
    requires { Within r out.now }
{
    if let (Way::Decode, Ok(n)) = (w, r) {
        say_marks(rt, &out[..n]);
    }
}

// Writes what the encoding or decoding of an action came to; the marks are said where all of it was written.
pub fn finish_code<R: Host>(
    rt: &R,
    a: Action,
    w: Way,
    r: Result<usize, Refusal>,
    out: &[u8],
) -> Status
    requires { Within r out.now }
    ensures answer { Fails r result }
    ensures past { status_of result ≤ 1 }
{
    let s = finish(rt, a, a.shape().written, r, out);
    if s == Status::Done {
        tell_marks(rt, w, r, out);
    }
    s
}
