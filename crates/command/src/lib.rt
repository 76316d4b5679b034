// The command `sbc`: finds the action that the arguments name, does it on files, and answers with its exit status.
#![tactic(auto)]

ghost use Rattle.std.specs.Prelude.{◌≡◌, false, ◌≤◌, IfSome, IsNone};
ghost use Rattle.command_arguments.specs.declared.Action.TheVariants.{Collection, Coding, Stream, Recordings, Verify};
ghost use Rattle.command_arguments.specs.declared.Form.TheVariants.{Words, Stream as AsStream};
ghost use Rattle.command_arguments.specs.declared.OnStream.TheVariants.{Pack, Unpack, Encode, Decode};
ghost use Rattle.command_arguments.specs.declared.OnRecordings.TheVariants.{Weave, Unweave};
ghost use Rattle.command_arguments.specs.Naming.{action_of};
ghost use Rattle.command_arguments.specs.Shapes.{shape_of, fits};
ghost use Rattle.command.specs.Acting.{EndsAs, Acted, ActedShort};

mod asking;
mod compiling;
mod records;

use command_arguments::naming::action_of;
use command_arguments::{Action, Form, OnRecordings, OnStream, Status, Way};
use command_messages::Host;
use command_messages::arguments::{argument, argument_count};
use command_messages::usage::{misused, misused_word, print_version};

// encode or decode. It has a stack frame of its own.
#[inline(never)]
pub fn sbc_action_code<R: Host>(rt: &R, w: Way) -> u32
    ensures answer { EndsAs (Coding w) result }
    ensures past { result ≤ 3 }
{
    command_code::code_files(rt, w).number()
}

// set. It has a stack frame of its own.
#[inline(never)]
pub fn sbc_action_set<R: Host>(rt: &R) -> u32
    ensures answer { EndsAs Collection result }
    ensures past { result ≤ 3 }
{
    records::set_file(rt).number()
}

// pack. It has a stack frame of its own.
#[inline(never)]
pub fn sbc_action_pack<R: Host>(rt: &R) -> u32
    ensures answer { EndsAs (Stream Pack) result }
    ensures past { result ≤ 3 }
{
    command_stream::pack_file(rt).number()
}

// unpack. It has a stack frame of its own.
#[inline(never)]
pub fn sbc_action_unpack<R: Host>(rt: &R) -> u32
    ensures answer { EndsAs (Stream Unpack) result }
    ensures past { result ≤ 3 }
{
    command_stream::unpack_file(rt).number()
}

// encode-stream. It has a stack frame of its own.
#[inline(never)]
pub fn sbc_action_encode_stream<R: Host>(rt: &R) -> u32
    ensures answer { EndsAs (Stream Encode) result }
    ensures past { result ≤ 3 }
{
    command_stream::encode_file(rt).number()
}

// decode-stream. It has a stack frame of its own.
#[inline(never)]
pub fn sbc_action_decode_stream<R: Host>(rt: &R) -> u32
    ensures answer { EndsAs (Stream Decode) result }
    ensures past { result ≤ 3 }
{
    command_stream::decode_file(rt).number()
}

// weave. It has a stack frame of its own.
#[inline(never)]
pub fn sbc_action_weave<R: Host>(rt: &R) -> u32
    ensures answer { EndsAs (Recordings Weave) result }
    ensures past { result ≤ 3 }
{
    command_weave::rearrange_file(rt, OnRecordings::Weave).number()
}

// unweave. It has a stack frame of its own.
#[inline(never)]
pub fn sbc_action_unweave<R: Host>(rt: &R) -> u32
    ensures answer { EndsAs (Recordings Unweave) result }
    ensures past { result ≤ 3 }
{
    command_weave::rearrange_file(rt, OnRecordings::Unweave).number()
}

// verify. It has a stack frame of its own.
#[inline(never)]
pub fn sbc_action_verify<R: Host>(rt: &R) -> u32
    ensures answer { EndsAs (Verify Words) result }
    ensures past { result ≤ 3 }
{
    command_verify::verifying::verify_file(rt).number()
}

// verify-stream. It has a stack frame of its own.
#[inline(never)]
pub fn sbc_action_verify_stream<R: Host>(rt: &R) -> u32
    ensures answer { EndsAs (Verify AsStream) result }
    ensures past { result ≤ 3 }
{
    command_verify::verifying::verify_stream_file(rt).number()
}

// Does an action on bit streams; the answer is the exit status.
fn act_on_stream<R: Host>(rt: &R, s: OnStream) -> u32
    ensures answer { EndsAs (Stream s) result }
    ensures past { result ≤ 3 }
{
    match s {
        OnStream::Pack => sbc_action_pack(rt),
        OnStream::Unpack => sbc_action_unpack(rt),
        OnStream::Encode => sbc_action_encode_stream(rt),
        OnStream::Decode => sbc_action_decode_stream(rt),
        OnStream::Reach => command_stream::reaching::reach_bits(rt).number(),
    }
}

// Does an action on several recordings at once; the answer is the exit status.
fn act_on_recordings<R: Host>(rt: &R, how: OnRecordings) -> u32
    ensures answer { EndsAs (Recordings how) result }
    ensures past { result ≤ 3 }
{
    match how {
        OnRecordings::Weave => sbc_action_weave(rt),
        OnRecordings::Unweave => sbc_action_unweave(rt),
    }
}

// Does an action that verifies; the answer is the exit status.
fn act_on_words<R: Host>(rt: &R, f: Form) -> u32
    ensures answer { EndsAs (Verify f) result }
    ensures past { result ≤ 3 }
{
    match f {
        Form::Words => sbc_action_verify(rt),
        Form::Stream => sbc_action_verify_stream(rt),
    }
}

// Does an action; the answer is the exit status.
fn act<R: Host>(rt: &R, a: Action) -> u32
    ensures answer { EndsAs a result }
    ensures past { result ≤ 3 }
{
    match a {
        Action::Compile(_) => compiling::compile(rt).number(),
        Action::CompileJob => compiling::compile_file(rt).number(),
        Action::CompileJoined => compiling::compile_joined_file(rt).number(),
        Action::Trace => compiling::trace_numbers(rt).number(),
        Action::Collection => sbc_action_set(rt),
        Action::Help => asking::help(rt).number(),
        Action::Version => print_version(rt).number(),
        Action::Viewing(v) => records::view_file(rt, v).number(),
        Action::WithTail => records::close_file(rt).number(),
        Action::Coding(w) => sbc_action_code(rt, w),
        Action::Stream(s) => act_on_stream(rt, s),
        Action::Recordings(how) => act_on_recordings(rt, how),
        Action::Verify(f) => act_on_words(rt, f),
    }
}

// Does an action, if there are as many arguments as it takes.
fn act_fitting<R: Host>(rt: &R, a: Action, count: usize) -> u32
    ensures answer { EndsAs a result }
    ensures past { result ≤ 3 }
    ensures fitting { fits (shape_of a).fewest (shape_of a).most count ≡ false → result ≡ 2 }
{
    if a.shape().is_fitting(count) {
        act(rt, a)
    } else {
        misused(rt, a).number()
    }
}

// Does the action that a word names, if one does, with so many arguments; the answer is the exit status.
fn run_word<R: Host>(rt: &R, word: &[u8], count: usize) -> u32
    ensures answer { IfSome (action_of word.now) (λ a. EndsAs a result) }
    ensures past { result ≤ 3 }
    ensures named { IsNone (action_of word.now) → result ≡ 2 }
    ensures fitting { IfSome (action_of word.now) (λ a. fits (shape_of a).fewest (shape_of a).most count ≡ false
        → result ≡ 2) }
{
    match action_of(word) {
        Some(a) => act_fitting(rt, a, count),
        None => misused_word(rt, Action::Help, word, b": no such action").number(),
    }
}

// Does what the arguments say; the answer is the exit status: 0, 1, 2 or 3.
pub fn run<R: Host>(rt: &R) -> u32
    ensures answer { result ≡ 0 → Acted }
    ensures short { result ≡ 3 → ActedShort }
    ensures past { result ≤ 3 }
{
    let mut word = io::buffer();
    match argument(rt, 1, &mut word) {
        Ok(n) => run_word(rt, &word[..n], argument_count(rt)),
        Err(_) => misused(rt, Action::Help).number(),
    }
}

// Does what the arguments say; the answer is the exit status: 0, 1, 2 or 3.
#[inline(never)]
pub fn sbc_main<R: Host>(rt: &R) -> u32
    ensures answer { result ≡ 0 → Acted }
    ensures short { result ≡ 3 → ActedShort }
    ensures past { result ≤ 3 }
{
    run(rt)
}
