// The functions of the library, each with its answer as one number. The crate sbc_c exports them for C and Rust.
#![tactic(auto)]

ghost use Rattle.std.specs.Prelude.{◌≡◌, length};
ghost use Rattle.answer.specs.Outcomes.{answer_of, output_of};
ghost use Rattle.record_check.specs.Parse.{checked_only};
ghost use Rattle.record_tail.specs.Closing.{closed_with};
ghost use Rattle.codec.specs.Answers.{encode_under, decode_under, encode_checked, decode_checked};
ghost use Rattle.compile.specs.Compile.{compile_job, compile_run_length, compile_joined};
ghost use Rattle.info.specs.Info.{info_under, phrase_into};
ghost use Rattle.view_job.specs.Listings.{list_into};
ghost use Rattle.stream_pack.specs.Streams.{pack_into, unpack_into};
ghost use Rattle.set_check.specs.Sets.{read_set};
ghost use Rattle.set_check.specs.Results.{set_answer};
ghost use Rattle.stream.specs.Recorded.{encode_stream, decode_stream};
ghost use Rattle.codec_verify.specs.Verify.{verify_under, verify_stream};
ghost use Rattle.weaving.specs.Weaving.{weave_into, unweave_into};
ghost use Rattle.word.specs.Words.{word_of};
ghost use Rattle.sbc.specs.Words.{set_word_of};
ghost use Rattle.sbc.specs.Version.{version};

use set_check::BadRecord;
use word::{join, word};

// A set's answer as one number: the refusal's number times 2^56 plus the value.
fn set_word(a: Result<usize, BadRecord>) -> u64
    ensures answer { result ≡ set_word_of a }
{
    join(set_check::set_number(a), set_check::set_value(a))
}

// Whether a record is accepted: refusals 8, 7, 8, 7, 9, 10 in this order, or 0.
pub fn sbc_check(bytes: &[u8]) -> u64
    ensures answer { result ≡ word_of (answer_of (checked_only bytes.now)) }
{
    word(record_check::check(bytes))
}

// Whether a set of records is good: 8 with number 0 for no bytes at all; then, record by record, 8 if its length or
// bytes are cut off, else the record's refusals, with the record's number; 8 with the count for bytes left over;
// otherwise the count.
pub fn sbc_set(set: &[u8]) -> u64
    ensures answer { result ≡ set_word_of (set_answer (read_set set.now)) }
{
    set_word(set_check::check_set(set))
}

// Blocks recorded under a record: the record's refusals, 13, 11 with the place of the first bad block; otherwise how
// many words were written. A refusal changes no byte of the output, and bytes past the words stay as lent.
pub fn sbc_encode(bytes: &[u8], blocks: &[u8], out: &mut [u8]) -> u64
    ensures answer { result ≡ word_of (answer_of
        (encode_under bytes.now (length out.old) blocks.now)) }
    ensures written { out.new ≡ output_of
        (encode_under bytes.now (length out.old) blocks.now) out.old }
{
    word(codec_record::encoding::encode(bytes, blocks, out))
}

// Words decoded under a record: the record's refusals, 12, 13, 11 with the place of the first bad word; otherwise how
// many blocks were written. A refusal changes no byte of the output, and bytes past the blocks stay as lent.
pub fn sbc_decode(bytes: &[u8], words: &[u8], out: &mut [u8]) -> u64
    ensures answer { result ≡ word_of (answer_of
        (decode_under bytes.now (length out.old) words.now)) }
    ensures written { out.new ≡ output_of
        (decode_under bytes.now (length out.old) words.now) out.old }
{
    word(codec_record::decoding::decode(bytes, words, out))
}

// How many words in front encoding the decoded blocks gives back, all of them exactly if the words are a recording: the
// record's refusals, 12, 11 with the place of the first bad word; otherwise their number.
pub fn sbc_verify(bytes: &[u8], words: &[u8]) -> u64
    ensures answer { result ≡ word_of (answer_of (verify_under bytes.now words.now)) }
{
    word(codec_verify::verify(bytes, words))
}

// Blocks recorded under a record that was accepted before: as `sbc_encode`, but 9 and 10 are not looked at.
pub fn sbc_encode_checked(bytes: &[u8], blocks: &[u8], out: &mut [u8]) -> u64
    ensures answer { result ≡ word_of (answer_of
        (encode_checked bytes.now (length out.old) blocks.now)) }
    ensures written { out.new ≡ output_of
        (encode_checked bytes.now (length out.old) blocks.now) out.old }
{
    word(codec_record::encoding::encode_checked(bytes, blocks, out))
}

// Words decoded under a record that was accepted before: as `sbc_decode`, but 9 and 10 are not looked at.
pub fn sbc_decode_checked(bytes: &[u8], words: &[u8], out: &mut [u8]) -> u64
    ensures answer { result ≡ word_of (answer_of
        (decode_checked bytes.now (length out.old) words.now)) }
    ensures written { out.new ≡ output_of
        (decode_checked bytes.now (length out.old) words.now) out.old }
{
    word(codec_record::decoding::decode_checked(bytes, words, out))
}

// Words of q bits as a bit stream: 1 for a q out of range, 15 for too many words, 13, 11 with the place of the first
// bad word; otherwise how many bytes were written.
pub fn sbc_pack(q: u64, words: &[u8], out: &mut [u8]) -> u64
    ensures answer { result ≡ word_of (answer_of (pack_into q (length out.old) words.now)) }
    ensures written { out.new
        ≡ output_of (pack_into q (length out.old) words.now) out.old }
{
    word(stream_pack::pack(q as usize, words, out))
}

// The `count` words of q bits of a bit stream: 1 for a q out of range, 15, 13; otherwise how many words were written.
pub fn sbc_unpack(q: u64, count: u64, bytes: &[u8], out: &mut [u8]) -> u64
    ensures answer { result ≡ word_of (answer_of
        (unpack_into q count (length out.old) bytes.now)) }
    ensures written { out.new ≡ output_of
        (unpack_into q count (length out.old) bytes.now) out.old }
{
    word(stream_pack::unpack(q as usize, count as usize, bytes, out))
}

// The recordings that stand one after the other in the words, as many as the depth says, woven: 16 for a depth that is
// not 2 to 16 or does not divide the number of words, 13; otherwise how many words were written.
pub fn sbc_weave(depth: u64, words: &[u8], out: &mut [u8]) -> u64
    ensures answer { result ≡ word_of (answer_of
        (weave_into depth (length out.old) words.now)) }
    ensures written { out.new
        ≡ output_of (weave_into depth (length out.old) words.now) out.old }
{
    word(weaving::weave(depth as usize, words, out))
}

// The recordings that are woven in the words, one after the other: 16 and 13 as for weaving; otherwise how many words
// were written.
pub fn sbc_unweave(depth: u64, words: &[u8], out: &mut [u8]) -> u64
    ensures answer { result ≡ word_of (answer_of
        (unweave_into depth (length out.old) words.now)) }
    ensures written { out.new
        ≡ output_of (unweave_into depth (length out.old) words.now) out.old }
{
    word(weaving::unweave(depth as usize, words, out))
}

// Blocks recorded under a record as a bit stream: the record's refusals, 15 for too many words, 13, 11 with the place
// of the first bad block; otherwise how many bytes were written.
pub fn sbc_encode_stream(bytes: &[u8], blocks: &[u8], out: &mut [u8]) -> u64
    ensures answer { result ≡ word_of (answer_of
        (encode_stream bytes.now (length out.old) blocks.now)) }
    ensures written { out.new ≡ output_of
        (encode_stream bytes.now (length out.old) blocks.now) out.old }
{
    word(stream_record::encode_stream(bytes, blocks, out))
}

// The `count` words of a bit stream decoded under a record: the record's refusals, 15, 12, 13; otherwise how many
// blocks were written.
pub fn sbc_decode_stream(bytes: &[u8], count: u64, stream: &[u8], out: &mut [u8]) -> u64
    ensures answer { result ≡ word_of (answer_of
        (decode_stream bytes.now count (length out.old) stream.now)) }
    ensures written { out.new ≡ output_of
        (decode_stream bytes.now count (length out.old) stream.now)
        out.old }
{
    word(stream_record::decode_stream(bytes, count as usize, stream, out))
}

// How many words of a stream, in front, encoding the decoded blocks gives back, all of them exactly if they are a
// recording: the record's refusals, 15, 12; otherwise their number.
pub fn sbc_verify_stream(bytes: &[u8], count: u64, stream: &[u8]) -> u64
    ensures answer { result ≡ word_of (answer_of (verify_stream bytes.now count stream.now)) }
{
    word(stream_verify::verify_stream(bytes, count as usize, stream))
}

// The numbers of a record, one byte each: p, q, states less one, m, a, K, constraint start, tail datum. The record's
// refusals, 13; otherwise 8.
pub fn sbc_info(bytes: &[u8], out: &mut [u8]) -> u64
    ensures answer { result ≡ word_of (answer_of (info_under bytes.now (length out.old))) }
    ensures written { out.new
        ≡ output_of (info_under bytes.now (length out.old)) out.old }
{
    word(info::info(bytes, out))
}

// A record with another tail datum: the record's refusals, 7 for a datum of 2^p or more, 13; otherwise how many bytes
// were written, as many as the record has.
pub fn sbc_with_tail(bytes: &[u8], datum: u64, out: &mut [u8]) -> u64
    ensures answer { result ≡ word_of (answer_of
        (closed_with bytes.now datum (length out.old))) }
    ensures written { out.new
        ≡ output_of (closed_with bytes.now datum (length out.old)) out.old }
{
    word(record_tail::with_tail(bytes, datum as usize, out))
}

// A job compiled to a record: 8 below four bytes, 1, K by 2, 8, next states by 2, 3, 4, 5, 6, 13; otherwise how many
// bytes were written.
pub fn sbc_compile(job: &[u8], out: &mut [u8]) -> u64
    ensures answer { result ≡ word_of (answer_of (compile_job job.now (length out.old))) }
    ensures written { out.new
        ≡ output_of (compile_job job.now (length out.old)) out.old }
{
    word(compile::bytes::compile_job(job, out))
}

// A run-length job compiled to a record: 8, 1, 2, 3, 4, 5, 6, 13; otherwise how many bytes were written.
pub fn sbc_compile_run_length(job: &[u8], out: &mut [u8]) -> u64
    ensures answer { result ≡ word_of (answer_of (compile_run_length job.now (length out.old))) }
    ensures written { out.new
        ≡ output_of (compile_run_length job.now (length out.old)) out.old }
{
    word(compile::bytes::compile_run_length(job, out))
}

// A job with two constraints compiled to a record for both: 8 below four bytes, 1, for each constraint 8 for a missing
// K, K by 2, 8, next states by 2; 14, 3, 4, 5, 6, 13; otherwise how many bytes were written.
pub fn sbc_compile_joined(job: &[u8], out: &mut [u8]) -> u64
    ensures answer { result ≡ word_of (answer_of (compile_joined job.now (length out.old))) }
    ensures written { out.new
        ≡ output_of (compile_joined job.now (length out.old)) out.old }
{
    word(compile::bytes::compile_joined(job, out))
}

// The listing of a run-length job: 8, 1, 2, 3, 4, 5, 6, 13; otherwise how many bytes were written.
pub fn sbc_listing(job: &[u8], out: &mut [u8]) -> u64
    ensures answer { result ≡ word_of (answer_of (list_into job.now (length out.old))) }
    ensures written { out.new
        ≡ output_of (list_into job.now (length out.old)) out.old }
{
    word(view_job::list_run_length(job, out))
}

// The words of a refusal by its number, and no byte for a number that is no refusal: 13; otherwise how many bytes were
// written.
pub fn sbc_phrase(number: u64, out: &mut [u8]) -> u64
    ensures answer { result ≡ word_of (answer_of (phrase_into number (length out.old))) }
    ensures written { out.new
        ≡ output_of (phrase_into number (length out.old)) out.old }
{
    word(info::phrase(number, out))
}

// The version of the library: 10,000 times the major number, plus 100 times the minor number, plus the patch.
pub fn sbc_version() -> u64
    ensures answer { result ≡ version }
{
    20300
}
