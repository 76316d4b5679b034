// Encoding under the record in some bytes.
ghost use Rattle.std.specs.Prelude.{◌≡◌, length};
ghost use Rattle.answer.specs.Outcomes.{answer_of, output_of};
ghost use Rattle.codec.specs.Answers.{encode_under, encode_checked};

use answer::Refusal;
use codec_encode::encode_with;
use record_check::load;
use record_read::read;

// The recording of the blocks under the record in the bytes, in the output. Declines with the record's refusal, then
// 13, then 11.
pub fn encode(bytes: &[u8], blocks: &[u8], out: &mut [u8]) -> Result<usize, Refusal>
    ensures answer { result ≡ answer_of (encode_under bytes.now (length out.old) blocks.now) }
    ensures written { out.new
        ≡ output_of (encode_under bytes.now (length out.old) blocks.now)
        out.old }
{
    encode_with(load(bytes)?, blocks, out)
}

// The same for a record that was accepted before: 9 and 10 are not looked at.
pub fn encode_checked(bytes: &[u8], blocks: &[u8], out: &mut [u8]) -> Result<usize, Refusal>
    ensures answer { result ≡ answer_of (encode_checked bytes.now (length out.old) blocks.now) }
    ensures written { out.new
        ≡ output_of (encode_checked bytes.now (length out.old) blocks.now)
        out.old }
{
    encode_with(read(bytes)?, blocks, out)
}
