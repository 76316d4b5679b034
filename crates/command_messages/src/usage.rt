// How the command is used.
ghost use Rattle.std.specs.Prelude.{◌≡◌, ◌≤◌};
ghost use Rattle.command_arguments.specs.Shapes.{status_of};
ghost use Rattle.command_arguments.specs.declared.Status.TheVariants.{Misused};

use crate::recorded::{tell_coding, tell_recordings, tell_stream, tell_verify};
use crate::system::print;
use crate::{Host, Outlet, say, tell_text};
use command_arguments::{Action, Status, View};
use sentences::write_sentence;
use text::Writer;

// All actions.
fn tell_all<R: Host>(rt: &R, to: Outlet) -> Status
    ensures past { status_of result ≤ 1 }
{
    tell_text(
        rt,
        to,
        b"usage: sbc ACTION [ARGUMENT]...
  compile d k p q cap [weights W0 .. Wk] [OUT]
                                         compile a run-length job to a record
  compile-job FILE [OUT]                 compile a job to a record
  compile-joined FILE [OUT]              compile a job with two constraints to a record for both
  trace d k p q cap [weights W0 .. Wk]   print how a run-length job is compiled
  check FILE                             say whether a record is accepted
  show FILE                              print the code of a record
  draw FILE                              print the code of a record as a Graphviz digraph or an SVG matrix
  with-tail RECORD DATUM OUT             write a record with another tail datum
  encode RECORD DATA OUT                 record data blocks as words
  decode RECORD WORDS OUT                read words as data blocks
  verify RECORD WORDS                    say whether words are a recording
  pack q WORDS OUT                       pack words of q bits into a bit stream
  unpack q COUNT STREAM OUT              unpack the words of a bit stream
  encode-stream RECORD DATA OUT          record data blocks as a bit stream
  decode-stream RECORD COUNT STREAM OUT  read a bit stream as data blocks
  verify-stream RECORD COUNT STREAM      say whether the words of a bit stream are a recording
  reach RECORD FIRST LAST                print the blocks that overwritten channel bits can spoil
  weave D IN OUT                         weave D recordings that stand one after the other
  unweave D IN OUT                       take woven recordings apart again
  set FILE                               list the records of a set
  help [ACTION]                          print this, or more about an action; --help and -h too
  --version                              print the version
A file named - is standard input or standard output.
The exit status is 0 for a result, 1 for a refusal, a file that cannot be read or written, or words that verify finds
no recording, 2 for wrong usage, and 3 where decode wrote the blocks of words that are no recording.
",
    )
}

// The actions that compile bytes and trace compiling.
fn tell_compiling<R: Host>(rt: &R, to: Outlet, a: Action) -> Status
    ensures past { status_of result ≤ 1 }
{
    match a {
        Action::CompileJob => tell_text(
            rt,
            to,
            b"usage: sbc compile-job FILE [OUT]
Compiles the job in FILE to a code, and writes its record to OUT, or to standard output. A job is the bytes p, q, cap,
K, then for each of K states the next states for channel bits 0 and 1, with 255 for none. K weight bytes may follow:
one from 0 to cap for each state, as for compile.
",
        ),
        Action::CompileJoined => tell_text(
            rt,
            to,
            b"usage: sbc compile-joined FILE [OUT]
Compiles the job in FILE to a code that obeys two constraints at once, and writes its record to OUT, or to standard
output. The job is the bytes p, q, cap, then each constraint: K, and for each of its K states the next states for
channel bits 0 and 1, with 255 for none. A bit is allowed when both constraints allow it; both start in state 0.
",
        ),
        Action::Trace => tell_text(
            rt,
            to,
            b"usage: sbc trace d k p q cap [weights W0 .. Wk]
Prints how the run-length job is compiled, step by step. The last line of a job that is refused is its refusal.
Weights are as for compile. Where they fail, the line in front of the refusal says why.
",
        ),
        _ => tell_text(
            rt,
            to,
            b"usage: sbc compile d k p q cap [weights W0 .. Wk] [OUT]
Compiles the run-length constraint (d, k) to a code of p data bits to q channel bits, with weights up to cap, and
writes its record to OUT, or to standard output. d and k: 0 to 15, d at most k; p: 1 to 4; q: 1 to 8; cap: 1 to 16.
After the word weights stands one number from 0 to cap for each of the k + 1 states, not all of them 0. These weights
are used as they are, instead of the greatest ones. Refusal 17 says that they fail. For example:
  sbc compile 2 7 1 2 4 weights 2 3 4 4 3 3 1 1
A file called weights is given as ./weights, and after weights one called 5 as ./5.
",
        ),
    }
}

// The actions on a record.
fn tell_record<R: Host>(rt: &R, to: Outlet, v: View) -> Status
    ensures past { status_of result ≤ 1 }
{
    match v {
        View::Check => tell_text(
            rt,
            to,
            b"usage: sbc check FILE
Says whether the record in FILE is accepted.
",
        ),
        View::Show => tell_text(
            rt,
            to,
            b"usage: sbc show FILE
Prints the code of the record in FILE: its rate, its window, its constraint, its tail datum and its table.
",
        ),
        View::Draw => tell_text(
            rt,
            to,
            b"usage: sbc draw FILE
Prints the states and edges of the record in FILE as a Graphviz digraph, or as an SVG matrix of states by words
if there are more than 24 states.
",
        ),
    }
}

// An action.
fn tell<R: Host>(rt: &R, to: Outlet, a: Action) -> Status
    ensures past { status_of result ≤ 1 }
{
    match a {
        Action::Compile(_) | Action::CompileJob | Action::CompileJoined | Action::Trace => {
            tell_compiling(rt, to, a)
        }
        Action::Viewing(v) => tell_record(rt, to, v),
        Action::WithTail => tell_text(
            rt,
            to,
            b"usage: sbc with-tail RECORD DATUM OUT
Writes the record in RECORD with another tail datum to OUT. DATUM is a number below 2^p. Nothing else of the record
changes. Recordings under OUT close with DATUM; a record that compile writes closes with 0.
",
        ),
        Action::Coding(w) => tell_coding(rt, to, w),
        Action::Stream(s) => tell_stream(rt, to, s),
        Action::Recordings(r) => tell_recordings(rt, to, r),
        Action::Verify(f) => tell_verify(rt, to, f),
        Action::Collection => tell_text(
            rt,
            to,
            b"usage: sbc set FILE
Lists the records of the set in FILE: the number of each, its first byte, its length, p, q, states, m and a. A set is
a count byte, then each record behind a two-byte length, most significant byte first. At most 1,000,000 bytes.
",
        ),
        Action::Help | Action::Version => tell_all(rt, to),
    }
}

// Says how an action is used.
pub fn misused<R: Host>(rt: &R, a: Action) -> Status
    ensures answer { result ≡ Misused }
{
    tell(rt, Outlet::Errors, a);
    Status::Misused
}

// Says what is wrong with a word, and how an action is used.
pub fn misused_word<R: Host>(rt: &R, a: Action, word: &[u8], what: &[u8]) -> Status
    ensures answer { result ≡ Misused }
{
    say(rt, word, what);
    misused(rt, a)
}

// Says that a number is above the most that is taken, and how an action is used.
pub fn misused_above<R: Host>(rt: &R, a: Action, word: &[u8], most: usize) -> Status
    ensures answer { result ≡ Misused }
{
    let mut what = [0u8; 64];
    let mut writer = Writer::new(&mut what, 0);
    write_sentence(&mut writer, b": above #", &[most]);
    let n = writer.at;
    misused_word(rt, a, word, &what[..n])
}

// Says how many weights there are and how many states, which differ, and how an action is used.
pub fn misused_weights<R: Host>(rt: &R, a: Action, given: usize, states: usize) -> Status
    ensures answer { result ≡ Misused }
{
    let mut what = [0u8; 96];
    let mut writer = Writer::new(&mut what, 0);
    write_sentence(
        &mut writer,
        b"# weight~, the constraint has # state~",
        &[given, given, states, states],
    );
    let n = writer.at;
    say(rt, &what[..n], b"");
    misused(rt, a)
}

// Prints how an action is used.
pub fn print_use<R: Host>(rt: &R, a: Action) -> Status
    ensures past { status_of result ≤ 1 }
{
    tell(rt, Outlet::Output, a)
}

// Prints the version.
pub fn print_version<R: Host>(rt: &R) -> Status
    ensures past { status_of result ≤ 1 }
{
    print(rt, b"sbc 2.3\n")
}
