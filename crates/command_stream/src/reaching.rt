// The action that tells how far damage to channel bits reaches.
ghost use Rattle.std.specs.Prelude.{◌≡◌, ◌+◌, ◌≤◌};
ghost use Rattle.text.specs.Texts.{Added};
ghost use Rattle.stream_damage.specs.BitReach.{reach_under, reach_answer};
ghost use Rattle.command_arguments.specs.declared.Action.TheVariants.{Stream};
ghost use Rattle.command_arguments.specs.declared.OnStream.TheVariants.{Reach};
ghost use Rattle.command_arguments.specs.Shapes.{shape_of, status_of};
ghost use Rattle.command_inputs.specs.Inputs.{From, Said};
ghost use Rattle.command_outputs.specs.Results.{FailsBy, WellOnly};
ghost use Rattle.command_stream.specs.Reaching.{bits_from, reach_line};
ghost use Rattle.command_stream.specs.Streamed.{Reached};

use answer::Refusal;
use command_arguments::numbers::GREATEST;
use command_arguments::{Action, OnStream, Status};
use command_inputs::{Input, Number, load, number_at};
use command_messages::system::print;
use command_messages::{Host, refuse};
use sentences::put_sentence;
use stream_damage::{BitNo, BitRange, BlockRange, reach};

// The line of blocks from the first to the last.
fn put_reach(out: &mut [u8], b: BlockRange) -> usize
    ensures written { Added (reach_line b) 0 out.old out.new result }
{
    let f = b.first;
    let l = b.last;
    put_sentence(out, 0, b"blocks # to #\n", &[f.0, l.0])
}

// Prints the line of blocks.
fn print_reach<R: Host>(rt: &R, b: BlockRange) -> Status
    ensures past { status_of result ≤ 1 }
{
    let mut line = [0u8; 64];
    let n = put_reach(&mut line, b);
    print(rt, &line[..n])
}

// The blocks that overwriting channel bits can spoil, under a record.
fn reach_of(under: &[u8], first: usize, last: usize) -> Result<BlockRange, Refusal>
    ensures answer { result ≡ reach_answer (reach_under under.now (bits_from first last)) }
{
    reach(
        under,
        BitRange {
            first: BitNo(first),
            last: BitNo(last),
        },
    )
}

// Prints the blocks that overwriting channel bits can spoil, or says the refusal. `u` is what was read of the record.
fn tell_reach<R: Host>(rt: &R, u: Input, under: &[u8], first: Number, last: Number) -> Status
    requires { From (shape_of (Stream Reach)).under u under.now × Said (shape_of (Stream Reach)).number first
        × Said ((shape_of (Stream Reach)).number + 1) last × (first.value ≤ last.value) }
    ensures answer { FailsBy (reach_under under.now (bits_from first.value last.value)) result }
    ensures past { WellOnly Reached result }
{
    match reach_of(under, first.value, last.value) {
        Err(x) => refuse(rt, x),
        Ok(b) => print_reach(rt, b),
    }
}

// reach RECORD FIRST LAST, where FIRST is at most LAST
pub fn reach_bits<R: Host>(rt: &R) -> Status
    ensures answer { WellOnly Reached result }
{
    let a = Action::Stream(OnStream::Reach);
    let Some(last) = number_at(rt, a, 4, GREATEST) else {
        return Status::Misused;
    };
    let Some(first) = number_at(rt, a, 3, last.value) else {
        return Status::Misused;
    };
    let mut under = [0u8; 3866];
    let Some(u) = load(rt, a.shape().under, &mut under) else {
        return Status::Failed;
    };
    tell_reach(rt, u, &under[..u.size], first, last)
}
