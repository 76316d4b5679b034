// Decoding under the record in some bytes.
ghost use Rattle.std.specs.Prelude.{◌≡◌, length};
ghost use Rattle.answer.specs.Outcomes.{answer_of, output_of};
ghost use Rattle.codec.specs.Answers.{decode_under, decode_checked};
ghost use Rattle.codec.specs.With.{decoded_with};

use answer::Refusal;
use codec_decode::{decode_few, decode_many};
use record_check::load;
use record_read::read;
use table::Table;

// The blocks of the words under a table, in the output: little stack is taken where the table is small.
fn decode_with(table: Table, words: &[u8], out: &mut [u8]) -> Result<usize, Refusal>
    ensures answer { result ≡ answer_of (decoded_with table (length out.old) words.now) }
    ensures written { out.new ≡ output_of (decoded_with table (length out.old) words.now) out.old }
{
    if table.states <= 16 {
        return decode_few(table, words, out);
    }
    decode_many(table, words, out)
}

// The blocks of the words under the record in the bytes, in the output. Declines with the record's refusal, then 12,
// 13, 11.
pub fn decode(bytes: &[u8], words: &[u8], out: &mut [u8]) -> Result<usize, Refusal>
    ensures answer { result ≡ answer_of (decode_under bytes.now (length out.old) words.now) }
    ensures written { out.new
        ≡ output_of (decode_under bytes.now (length out.old) words.now)
        out.old }
{
    decode_with(load(bytes)?, words, out)
}

// The same for a record that was accepted before: 9 and 10 are not looked at.
pub fn decode_checked(bytes: &[u8], words: &[u8], out: &mut [u8]) -> Result<usize, Refusal>
    ensures answer { result ≡ answer_of (decode_checked bytes.now (length out.old) words.now) }
    ensures written { out.new
        ≡ output_of (decode_checked bytes.now (length out.old) words.now)
        out.old }
{
    decode_with(read(bytes)?, words, out)
}
