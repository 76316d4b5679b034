// The actions that tell whether words are a recording.
ghost use Rattle.std.specs.Prelude.{◌≡◌, ◌≤◌, length};
ghost use Rattle.text.specs.Texts.{Added};
ghost use Rattle.answer.specs.Outcomes.{answer_of};
ghost use Rattle.record_check.specs.Parse.{parse};
ghost use Rattle.codec_verify.specs.Verify.{verify_under, verify_stream};
ghost use Rattle.command_arguments.specs.declared.Action.TheVariants.{Verify};
ghost use Rattle.command_arguments.specs.declared.Form.TheVariants.{Words, Stream};
ghost use Rattle.command_arguments.specs.Shapes.{shape_of, status_of};
ghost use Rattle.command_inputs.specs.Inputs.{From, FromWhole, Said};
ghost use Rattle.command_outputs.specs.Results.{Fails, WellOnly};
ghost use Rattle.command_verify.specs.Verifying.{recording_line, blocks_under, VerifiedWords, VerifiedStream};

use crate::judged;
use codec_verify::verify;
use command_arguments::numbers::GREATEST;
use command_arguments::{Action, Form, Status};
use command_inputs::{
    Input, Number, is_twice, load, load_whole, misused_twice, number_at, recording,
};
use command_messages::Host;
use command_messages::system::print;
use sentences::put_sentence;
use stream_verify::verify_stream;

// How many blocks n words have, under the record in the bytes.
fn blocks_under(bytes: &[u8], n: usize) -> usize
    ensures answer { result ≡ blocks_under (parse bytes.now) n }
{
    match record_check::load(bytes) {
        Err(_) => 0,
        Ok(t) => n.saturating_sub(t.lookahead),
    }
}

// The line of a recording of n blocks.
fn put_recording(out: &mut [u8], n: usize) -> usize
    ensures written { Added (recording_line n) 0 out.old out.new result }
{
    put_sentence(out, 0, b"a recording of # block~\n", &[n, n])
}

// Prints the line of a recording of n words under the record in the bytes.
fn print_recording<R: Host>(rt: &R, bytes: &[u8], n: usize) -> Status
    ensures past { status_of result ≤ 1 }
{
    let mut line = [0u8; 64];
    let size = put_recording(&mut line, blocks_under(bytes, n));
    print(rt, &line[..size])
}

// Tells whether words are a recording under a record; the run ends well only if they are. `u` and `b` are what was read
// of the record and of the words.
fn verify_words<R: Host>(rt: &R, u: Input, under: &[u8], b: Input, words: &[u8]) -> Status
    requires { From (shape_of (Verify Words)).under u under.now × FromWhole (shape_of (Verify Words)).read b words.now }
    ensures answer { WellOnly (answer_of (verify_under under.now words.now) ≡ Ok (length words.now))
        result }
    ensures past { WellOnly VerifiedWords result }
    ensures failed { Fails (answer_of (verify_under under.now words.now)) result }
    ensures most { status_of result ≤ 1 }
{
    let r = verify(under, words);
    match judged(rt, r, words.len()) {
        Status::Done => print_recording(rt, under, words.len()),
        _ => Status::Failed,
    }
}

// The same of the words of a stream. `u` and `b` are what was read of the record and of the stream.
fn verify_counted<R: Host>(
    rt: &R,
    u: Input,
    under: &[u8],
    count: Number,
    b: Input,
    stream: &[u8],
) -> Status
    requires { From (shape_of (Verify Stream)).under u under.now × Said (shape_of (Verify Stream)).number count
        × From (shape_of (Verify Stream)).read b stream.now }
    ensures answer { WellOnly
        (answer_of (verify_stream under.now count.value stream.now) ≡ Ok count.value) result }
    ensures past { WellOnly VerifiedStream result }
    ensures failed { Fails (answer_of (verify_stream under.now count.value stream.now)) result }
    ensures most { status_of result ≤ 1 }
{
    let r = verify_stream(under, count.value, stream);
    match judged(rt, r, count.value) {
        Status::Done => print_recording(rt, under, count.value),
        _ => Status::Failed,
    }
}

// verify RECORD WORDS
pub fn verify_file<R: Host>(rt: &R) -> Status
    ensures answer { WellOnly VerifiedWords result }
{
    let a = Action::Verify(Form::Words);
    if is_twice(rt, a) {
        return misused_twice(rt, a);
    }
    let mut under = [0u8; 3866];
    let Some(u) = load(rt, a.shape().under, &mut under) else {
        return Status::Failed;
    };
    let mut words = recording();
    let Some(b) = load_whole(rt, a.shape().read, &mut words, 1000015) else {
        return Status::Failed;
    };
    verify_words(rt, u, &under[..u.size], b, &words[..b.size])
}

// verify-stream RECORD COUNT STREAM
pub fn verify_stream_file<R: Host>(rt: &R) -> Status
    ensures answer { WellOnly VerifiedStream result }
{
    let a = Action::Verify(Form::Stream);
    let Some(count) = number_at(rt, a, 3, GREATEST) else {
        return Status::Misused;
    };
    if is_twice(rt, a) {
        return misused_twice(rt, a);
    }
    let mut under = [0u8; 3866];
    let Some(u) = load(rt, a.shape().under, &mut under) else {
        return Status::Failed;
    };
    let mut stream = recording();
    let Some(b) = load(rt, a.shape().read, &mut stream) else {
        return Status::Failed;
    };
    verify_counted(rt, u, &under[..u.size], count, b, &stream[..b.size])
}
