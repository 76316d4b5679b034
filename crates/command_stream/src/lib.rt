// The actions on bit streams in files: packing, unpacking, encoding to a stream, decoding from one.
#![tactic(auto)]

ghost use Rattle.std.specs.Prelude.{◌≡◌, ◌⊎◌, ◌+◌, length};
ghost use Rattle.answer.specs.Outcomes.{answer_of, output_of};
ghost use Rattle.stream_pack.specs.Streams.{pack_into, unpack_into};
ghost use Rattle.stream.specs.Recorded.{encode_stream, decode_stream};
ghost use Rattle.codec_verify.specs.Verify.{verify_stream};
ghost use Rattle.command_arguments.specs.declared.Action.TheVariants.{Stream};
ghost use Rattle.command_arguments.specs.declared.OnStream.TheVariants.{Pack, Unpack, Encode, Decode};
ghost use Rattle.command_arguments.specs.declared.Status.TheVariants.{Failed};
ghost use Rattle.command_arguments.specs.Shapes.{shape_of};
ghost use Rattle.command_inputs.specs.Inputs.{From, Said};
ghost use Rattle.command_outputs.specs.Results.{Fails, EndsBy, WellOnly};
ghost use Rattle.command_verify.specs.Verifying.{end_by};
ghost use Rattle.command_stream.specs.Streamed.{Packed, Unpacked, EncodedStream, DecodedStream, SpoiledStream};

pub mod reaching;

use command_arguments::numbers::GREATEST;
use command_arguments::{Action, OnStream, Status, Way};
use command_inputs::{Input, Number, is_twice, load, misused_twice, number_at, recording};
use command_marks::finish_code;
use command_messages::Host;
use command_outputs::finish;
use command_verify::after_stream;
use stream_pack::{pack, unpack};
use stream_record::{decode_stream, encode_stream};

// The stream of words of q bits. `l` is what was read of the words.
fn pack_words<R: Host>(rt: &R, q: Number, l: Input, words: &[u8], out: &mut [u8]) -> Status
    requires { Said (shape_of (Stream Pack)).number q × From (shape_of (Stream Pack)).read l words.now }
    ensures answer { Fails (answer_of (pack_into q.value (length out.old) words.now)) result }
    ensures written { out.new
        ≡ output_of (pack_into q.value (length out.old) words.now) out.old }
    ensures past { WellOnly Packed result }
{
    let a = Action::Stream(OnStream::Pack);
    let r = pack(q.value, words, out);
    finish(rt, a, a.shape().written, r, out)
}

// pack q WORDS OUT
pub fn pack_file<R: Host>(rt: &R) -> Status
    ensures answer { WellOnly Packed result }
{
    let a = Action::Stream(OnStream::Pack);
    let Some(q) = number_at(rt, a, 2, GREATEST) else {
        return Status::Misused;
    };
    let mut words = recording();
    let Some(l) = load(rt, a.shape().read, &mut words) else {
        return Status::Failed;
    };
    let mut out = recording();
    pack_words(rt, q, l, &words[..l.size], &mut out)
}

// The words of q bits of a stream. `l` is what was read of the stream.
fn unpack_words<R: Host>(
    rt: &R,
    q: Number,
    count: Number,
    l: Input,
    stream: &[u8],
    out: &mut [u8],
) -> Status
    requires { Said (shape_of (Stream Unpack)).number q × Said ((shape_of (Stream Unpack)).number + 1) count
        × From (shape_of (Stream Unpack)).read l stream.now }
    ensures answer { Fails
        (answer_of (unpack_into q.value count.value (length out.old) stream.now)) result }
    ensures written { out.new
        ≡ output_of (unpack_into q.value count.value (length out.old) stream.now)
        out.old }
    ensures past { WellOnly Unpacked result }
{
    let a = Action::Stream(OnStream::Unpack);
    let r = unpack(q.value, count.value, stream, out);
    finish(rt, a, a.shape().written, r, out)
}

// unpack q COUNT STREAM OUT
pub fn unpack_file<R: Host>(rt: &R) -> Status
    ensures answer { WellOnly Unpacked result }
{
    let a = Action::Stream(OnStream::Unpack);
    let Some(q) = number_at(rt, a, 2, GREATEST) else {
        return Status::Misused;
    };
    let Some(count) = number_at(rt, a, 3, GREATEST) else {
        return Status::Misused;
    };
    let mut stream = recording();
    let Some(l) = load(rt, a.shape().read, &mut stream) else {
        return Status::Failed;
    };
    let mut out = recording();
    unpack_words(rt, q, count, l, &stream[..l.size], &mut out)
}

// The stream of blocks under a record. `u` and `b` are what was read of the record and of the blocks.
fn encode_blocks<R: Host>(
    rt: &R,
    u: Input,
    under: &[u8],
    b: Input,
    blocks: &[u8],
    out: &mut [u8],
) -> Status
    requires { From (shape_of (Stream Encode)).under u under.now × From (shape_of (Stream Encode)).read b blocks.now }
    ensures answer { Fails (answer_of (encode_stream under.now (length out.old) blocks.now)) result }
    ensures written { out.new
        ≡ output_of (encode_stream under.now (length out.old) blocks.now)
        out.old }
    ensures past { WellOnly EncodedStream result }
{
    let r = encode_stream(under, blocks, out);
    finish_code(rt, Action::Stream(OnStream::Encode), Way::Encode, r, out)
}

// encode-stream RECORD DATA OUT
pub fn encode_file<R: Host>(rt: &R) -> Status
    ensures answer { WellOnly EncodedStream result }
{
    let a = Action::Stream(OnStream::Encode);
    if is_twice(rt, a) {
        return misused_twice(rt, a);
    }
    let mut under = [0u8; 3866];
    let Some(u) = load(rt, a.shape().under, &mut under) else {
        return Status::Failed;
    };
    let mut blocks = recording();
    let Some(b) = load(rt, a.shape().read, &mut blocks) else {
        return Status::Failed;
    };
    let mut out = recording();
    encode_blocks(rt, u, &under[..u.size], b, &blocks[..b.size], &mut out)
}

// The blocks of the words of a stream under a record; the marks are said, and where the words are no recording, that
// too. `u` and `b` are what was read of the record and of the stream.
fn decode_words<R: Host>(
    rt: &R,
    u: Input,
    under: &[u8],
    count: Number,
    b: Input,
    stream: &[u8],
    out: &mut [u8],
) -> Status
    requires { From (shape_of (Stream Decode)).under u under.now × Said (shape_of (Stream Decode)).number count
        × From (shape_of (Stream Decode)).read b stream.now }
    ensures answer { Fails
        (answer_of
        (decode_stream under.now count.value (length out.old) stream.now)) result }
    ensures written { out.new
        ≡ output_of
        (decode_stream under.now count.value (length out.old) stream.now)
        out.old }
    ensures past { EndsBy DecodedStream SpoiledStream result }
    ensures verified { (result ≡ Failed)
        ⊎ (result
        ≡ end_by (answer_of (verify_stream under.now count.value stream.now)) count.value) }
{
    let r = decode_stream(under, count.value, stream, out);
    let s = finish_code(rt, Action::Stream(OnStream::Decode), Way::Decode, r, out);
    after_stream(rt, s, under, count.value, stream)
}

// decode-stream RECORD COUNT STREAM OUT
pub fn decode_file<R: Host>(rt: &R) -> Status
    ensures answer { EndsBy DecodedStream SpoiledStream result }
{
    let a = Action::Stream(OnStream::Decode);
    let Some(count) = number_at(rt, a, 3, GREATEST) else {
        return Status::Misused;
    };
    if is_twice(rt, a) {
        return misused_twice(rt, a);
    }
    let mut under = [0u8; 3866];
    let Some(u) = load(rt, a.shape().under, &mut under) else {
        return Status::Failed;
    };
    let mut stream = recording();
    let Some(b) = load(rt, a.shape().read, &mut stream) else {
        return Status::Failed;
    };
    let mut out = recording();
    decode_words(
        rt,
        u,
        &under[..u.size],
        count,
        b,
        &stream[..b.size],
        &mut out,
    )
}
