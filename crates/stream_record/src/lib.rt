// Encoding to a bit stream and decoding from one under the record in some bytes.
#![tactic(auto)]

ghost use Rattle.std.specs.Prelude.{◌≡◌, length};
ghost use Rattle.answer.specs.Outcomes.{answer_of, output_of};
ghost use Rattle.stream.specs.Recorded.{encode_stream, decode_stream};

use answer::Refusal;
use record_check::load;
use stream_decode::decode_stream_with;
use stream_encode::encode_stream_with;

// The stream of the recording of the blocks under the record in the bytes, in the output. Declines with the record's
// refusal, then 15, 13, 11.
pub fn encode_stream(bytes: &[u8], blocks: &[u8], out: &mut [u8]) -> Result<usize, Refusal>
    ensures answer { result ≡ answer_of (encode_stream bytes.now (length out.old) blocks.now) }
    ensures written { out.new
        ≡ output_of (encode_stream bytes.now (length out.old) blocks.now)
        out.old }
{
    encode_stream_with(load(bytes)?, blocks, out)
}

// The blocks of the `count` words of a stream under the record in the bytes, in the output. Declines with the record's
// refusal, then 15, 12, 13.
pub fn decode_stream(
    bytes: &[u8],
    count: usize,
    stream: &[u8],
    out: &mut [u8],
) -> Result<usize, Refusal>
    ensures answer { result ≡ answer_of (decode_stream bytes.now count (length out.old) stream.now) }
    ensures written { out.new
        ≡ output_of (decode_stream bytes.now count (length out.old) stream.now)
        out.old }
{
    decode_stream_with(load(bytes)?, count, stream, out)
}
