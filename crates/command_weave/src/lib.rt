// The actions that weave and unweave.
#![tactic(auto)]

ghost use Rattle.std.specs.Prelude.{◌≡◌, length};
ghost use Rattle.answer.specs.Outcomes.{answer_of, output_of};
ghost use Rattle.command_arguments.specs.declared.Action.TheVariants.{Recordings};
ghost use Rattle.command_arguments.specs.Shapes.{shape_of};
ghost use Rattle.command_inputs.specs.Inputs.{FromWhole, Said};
ghost use Rattle.command_outputs.specs.Results.{Fails, WellOnly};
ghost use Rattle.command_weave.specs.Weaves.{rearrange_into, Rearranged};

use answer::Refusal;
use command_arguments::numbers::GREATEST;
use command_arguments::{Action, OnRecordings, Status};
use command_inputs::{Input, Number, load_whole, number_at, recording};
use command_messages::Host;
use command_outputs::finish;
use weaving::{unweave, weave};

// The words of d recordings, woven or taken apart, in the output.
fn rearrange(how: OnRecordings, d: usize, words: &[u8], out: &mut [u8]) -> Result<usize, Refusal>
    ensures answer { result ≡ answer_of (rearrange_into how d (length out.old) words.now) }
    ensures written { out.new
        ≡ output_of (rearrange_into how d (length out.old) words.now) out.old }
{
    match how {
        OnRecordings::Weave => weave(d, words, out),
        OnRecordings::Unweave => unweave(d, words, out),
    }
}

// The words of d recordings, woven or taken apart; the run fails where they are refused. `l` is what was read of the
// words.
fn rearrange_words<R: Host>(
    rt: &R,
    how: OnRecordings,
    d: Number,
    l: Input,
    words: &[u8],
    out: &mut [u8],
) -> Status
    requires { Said (shape_of (Recordings how)).number d × FromWhole (shape_of (Recordings how)).read l words.now }
    ensures answer { Fails (answer_of (rearrange_into how d.value (length out.old) words.now)) result }
    ensures written { out.new
        ≡ output_of (rearrange_into how d.value (length out.old) words.now)
        out.old }
    ensures past { WellOnly (Rearranged how) result }
{
    let a = Action::Recordings(how);
    let r = rearrange(how, d.value, words, out);
    finish(rt, a, a.shape().written, r, out)
}

// weave D IN OUT, unweave D IN OUT
pub fn rearrange_file<R: Host>(rt: &R, how: OnRecordings) -> Status
    ensures answer { WellOnly (Rearranged how) result }
{
    let a = Action::Recordings(how);
    let Some(d) = number_at(rt, a, 2, GREATEST) else {
        return Status::Misused;
    };
    let mut words = recording();
    let Some(l) = load_whole(rt, a.shape().read, &mut words, 1000015) else {
        return Status::Failed;
    };
    let mut out = recording();
    rearrange_words(rt, how, d, l, &words[..l.size], &mut out)
}
