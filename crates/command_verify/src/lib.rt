// What is said of words that were verified, and how a run ends by it.
#![tactic(auto)]

ghost use Rattle.std.specs.Prelude.{◌≡◌, length};
ghost use Rattle.text.specs.Texts.{Added};
ghost use Rattle.answer.specs.Outcomes.{answer_of};
ghost use Rattle.codec_verify.specs.Verify.{verify_under, verify_stream};
ghost use Rattle.command_arguments.specs.declared.Status.TheVariants.{Done};
ghost use Rattle.command_verify.specs.Verifying.{short_line, end_by, after_by};

pub mod verifying;

use answer::Refusal;
use codec_verify::verify;
use command_arguments::Status;
use command_messages::{Host, refuse};
use sentences::put_sentence;
use stream_verify::verify_stream;

// The line of n words of which k come back, and not the next.
fn put_short(out: &mut [u8], k: usize, n: usize) -> usize
    ensures written { Added (short_line k n) 0 out.old out.new result }
{
    put_sentence(
        out,
        0,
        b"sbc: no recording: # of # word~ come back, word # is the first that does not\n",
        &[k, n, n, k],
    )
}

// Says that of n words k come back, and not the next.
fn say_short<R: Host>(rt: &R, k: usize, n: usize) {
    let mut line = [0u8; 192];
    let size = put_short(&mut line, k, n);
    let _ = rt.tell(&line[..size]);
}

// How a run ends by the answer on n words; where some of them do not come back, that is said.
pub fn judged<R: Host>(rt: &R, r: Result<usize, Refusal>, n: usize) -> Status
    ensures answer { result ≡ end_by r n }
{
    match r {
        Err(x) => refuse(rt, x),
        Ok(k) => {
            if k < n {
                say_short(rt, k, n);
                return Status::NoRecording;
            }
            Status::Done
        }
    }
}

// How a run ends that verifies nothing and ended so far as `s`: well where all was written, and otherwise it fails.
pub fn after_writing(s: Status) -> Status
    ensures answer { result ≡ after_by s Done }
{
    match s {
        Status::Done => Status::Done,
        _ => Status::Failed,
    }
}

// How a run ends that has decoded words and ended so far as `s`: where all was written, by whether they are a
// recording.
pub fn after_words<R: Host>(rt: &R, s: Status, under: &[u8], words: &[u8]) -> Status
    ensures answer { result
        ≡ after_by s
        (end_by (answer_of (verify_under under.now words.now)) (length words.now)) }
{
    match s {
        Status::Done => judged(rt, verify(under, words), words.len()),
        _ => Status::Failed,
    }
}

// The same of the words of a stream.
pub fn after_stream<R: Host>(rt: &R, s: Status, under: &[u8], count: usize, stream: &[u8]) -> Status
    ensures answer { result ≡ after_by s (end_by (answer_of (verify_stream under.now count stream.now)) count) }
{
    match s {
        Status::Done => judged(rt, verify_stream(under, count, stream), count),
        _ => Status::Failed,
    }
}
