// The actions that encode and decode.
#![tactic(auto)]

ghost use Rattle.std.specs.Prelude.{◌≡◌, ◌⊎◌, length};
ghost use Rattle.answer.specs.Outcomes.{answer_of, output_of};
ghost use Rattle.command_arguments.specs.declared.Action.TheVariants.{Coding};
ghost use Rattle.command_arguments.specs.declared.Status.TheVariants.{Failed};
ghost use Rattle.command_arguments.specs.Shapes.{shape_of};
ghost use Rattle.command_inputs.specs.Inputs.{From, FromWhole};
ghost use Rattle.command_outputs.specs.Results.{Fails, EndsBy};
ghost use Rattle.command_verify.specs.Verifying.{after_by};
ghost use Rattle.command_code.specs.Coding.{coded, Coded, Spoiled, end_code, longest_of};

use answer::Refusal;
use codec_record::decoding::decode;
use codec_record::encoding::encode;
use command_arguments::{Action, Status, Way};
use command_inputs::{Input, is_twice, load, load_whole, misused_twice, recording};
use command_marks::finish_code;
use command_messages::Host;
use command_verify::{after_words, after_writing};

// The words of blocks, or the blocks of words, under a record, in the output.
fn code(w: Way, under: &[u8], bytes: &[u8], out: &mut [u8]) -> Result<usize, Refusal>
    ensures answer { result ≡ answer_of (coded w under.now (length out.old) bytes.now) }
    ensures written { out.new
        ≡ output_of (coded w under.now (length out.old) bytes.now)
        out.old }
{
    match w {
        Way::Encode => encode(under, bytes, out),
        Way::Decode => decode(under, bytes, out),
    }
}

// The most bytes that are taken: 1,000,000 blocks, and the words of as many.
fn longest(w: Way) -> usize
    ensures answer { result ≡ longest_of w }
{
    match w {
        Way::Encode => 1000000,
        Way::Decode => 1000015,
    }
}

// How a run ends that ended so far as `s`: a decoding by whether the words are a recording.
fn end_code<R: Host>(rt: &R, w: Way, s: Status, under: &[u8], bytes: &[u8]) -> Status
    ensures answer { result ≡ after_by s (end_code w under.now bytes.now) }
{
    match w {
        Way::Encode => after_writing(s),
        Way::Decode => after_words(rt, s, under, bytes),
    }
}

// The words of blocks, or the blocks of words, under a record; the run fails where they are refused, and tells where
// words that were decoded are no recording. `u` and `b` are what was read of the record and of the bytes.
fn code_bytes<R: Host>(
    rt: &R,
    w: Way,
    u: Input,
    under: &[u8],
    b: Input,
    bytes: &[u8],
    out: &mut [u8],
) -> Status
    requires { From (shape_of (Coding w)).under u under.now × FromWhole (shape_of (Coding w)).read b bytes.now }
    ensures answer { Fails (answer_of (coded w under.now (length out.old) bytes.now)) result }
    ensures written { out.new
        ≡ output_of (coded w under.now (length out.old) bytes.now)
        out.old }
    ensures past { EndsBy (Coded w) (Spoiled w) result }
    ensures verified { (result ≡ Failed) ⊎ (result ≡ end_code w under.now bytes.now) }
{
    let r = code(w, under, bytes, out);
    let s = finish_code(rt, Action::Coding(w), w, r, out);
    end_code(rt, w, s, under, bytes)
}

// encode RECORD DATA OUT, decode RECORD WORDS OUT
pub fn code_files<R: Host>(rt: &R, w: Way) -> Status
    ensures answer { EndsBy (Coded w) (Spoiled w) result }
{
    let a = Action::Coding(w);
    if is_twice(rt, a) {
        return misused_twice(rt, a);
    }
    let mut under = [0u8; 3866];
    let Some(u) = load(rt, a.shape().under, &mut under) else {
        return Status::Failed;
    };
    let mut bytes = recording();
    let Some(b) = load_whole(rt, a.shape().read, &mut bytes, longest(w)) else {
        return Status::Failed;
    };
    let mut out = recording();
    code_bytes(rt, w, u, &under[..u.size], b, &bytes[..b.size], &mut out)
}
