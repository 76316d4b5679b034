// The functions exported for C and Rust. Each takes bytes as pointer and length, and answers one number.
// They stand twice, here and in `sbc`, for the C interface: a crate is a library, which the theorems use, or a static one.
#![tactic(auto)]

ghost use Rattle.std.specs.Prelude.{◌≡◌, length};
ghost use Rattle.answer.specs.Outcomes.{answer_of, output_of};
ghost use Rattle.record_check.specs.Parse.{checked_only};
ghost use Rattle.record_tail.specs.Closing.{closed_with};
ghost use Rattle.codec.specs.Answers.{encode_under, decode_under, encode_checked, decode_checked};
ghost use Rattle.compile.specs.Compile.{compile_job, compile_run_length, compile_joined};
ghost use Rattle.info.specs.Info.{info_under, phrase_into};
ghost use Rattle.view_job.specs.Listings.{list_into};
ghost use Rattle.stream_pack.specs.Streams.{pack_into, unpack_into};
ghost use Rattle.set_check.specs.Sets.{read_set};
ghost use Rattle.set_check.specs.Results.{set_answer};
ghost use Rattle.stream.specs.Recorded.{encode_stream, decode_stream};
ghost use Rattle.codec_verify.specs.Verify.{verify_under, verify_stream};
ghost use Rattle.weaving.specs.Weaving.{weave_into, unweave_into};
ghost use Rattle.word.specs.Words.{word_of};
ghost use Rattle.sbc.specs.Version.{version};
ghost use Rattle.sbc.specs.Words.{set_word_of};

// Whether a record is accepted: refusals 8, 7, 8, 7, 9, 10 in this order, or 0.
#[unsafe(no_mangle)]
pub extern "C" fn sbc_check(bytes: &[u8]) -> u64
    ensures answer { result ≡ word_of (answer_of (checked_only bytes.now)) }
{
    sbc::sbc_check(bytes)
}

// Whether a set of records is good: 8 with number 0 for no bytes at all; then, record by record, 8 if its length or
// bytes are cut off, else the record's refusals, with the record's number; 8 with the count for bytes left over;
// otherwise the count.
#[unsafe(no_mangle)]
pub extern "C" fn sbc_set(set: &[u8]) -> u64
    ensures answer { result ≡ set_word_of (set_answer (read_set set.now)) }
{
    sbc::sbc_set(set)
}

// Blocks recorded under a record: the record's refusals, 13, 11 with the place of the first bad block; otherwise how
// many words were written. A refusal changes no byte of the output, and bytes past the words stay as lent.
#[unsafe(no_mangle)]
pub extern "C" fn sbc_encode(bytes: &[u8], blocks: &[u8], out: &mut [u8]) -> u64
    ensures answer { result ≡ word_of (answer_of
        (encode_under bytes.now (length out.old) blocks.now)) }
    ensures written { out.new ≡ output_of
        (encode_under bytes.now (length out.old) blocks.now) out.old }
{
    sbc::sbc_encode(bytes, blocks, out)
}

// Words decoded under a record: the record's refusals, 12, 13, 11 with the place of the first bad word; otherwise how
// many blocks were written. A refusal changes no byte of the output, and bytes past the blocks stay as lent.
#[unsafe(no_mangle)]
pub extern "C" fn sbc_decode(bytes: &[u8], words: &[u8], out: &mut [u8]) -> u64
    ensures answer { result ≡ word_of (answer_of
        (decode_under bytes.now (length out.old) words.now)) }
    ensures written { out.new ≡ output_of
        (decode_under bytes.now (length out.old) words.now) out.old }
{
    sbc::sbc_decode(bytes, words, out)
}

// How many words in front encoding the decoded blocks gives back, all of them exactly if the words are a recording: the
// record's refusals, 12, 11 with the place of the first bad word; otherwise their number.
#[unsafe(no_mangle)]
pub extern "C" fn sbc_verify(bytes: &[u8], words: &[u8]) -> u64
    ensures answer { result ≡ word_of (answer_of (verify_under bytes.now words.now)) }
{
    sbc::sbc_verify(bytes, words)
}

// Blocks recorded under a record that was accepted before: as `sbc_encode`, but 9 and 10 are not looked at.
#[unsafe(no_mangle)]
pub extern "C" fn sbc_encode_checked(bytes: &[u8], blocks: &[u8], out: &mut [u8]) -> u64
    ensures answer { result ≡ word_of (answer_of
        (encode_checked bytes.now (length out.old) blocks.now)) }
    ensures written { out.new ≡ output_of
        (encode_checked bytes.now (length out.old) blocks.now) out.old }
{
    sbc::sbc_encode_checked(bytes, blocks, out)
}

// Words decoded under a record that was accepted before: as `sbc_decode`, but 9 and 10 are not looked at.
#[unsafe(no_mangle)]
pub extern "C" fn sbc_decode_checked(bytes: &[u8], words: &[u8], out: &mut [u8]) -> u64
    ensures answer { result ≡ word_of (answer_of
        (decode_checked bytes.now (length out.old) words.now)) }
    ensures written { out.new ≡ output_of
        (decode_checked bytes.now (length out.old) words.now) out.old }
{
    sbc::sbc_decode_checked(bytes, words, out)
}

// Words of q bits as a bit stream: 1 for a q out of range, 15 for too many words, 13, 11 with the place of the first
// bad word; otherwise how many bytes were written.
#[unsafe(no_mangle)]
pub extern "C" fn sbc_pack(q: u64, words: &[u8], out: &mut [u8]) -> u64
    ensures answer { result ≡ word_of (answer_of (pack_into q (length out.old) words.now)) }
    ensures written { out.new
        ≡ output_of (pack_into q (length out.old) words.now) out.old }
{
    sbc::sbc_pack(q, words, out)
}

// The `count` words of q bits of a bit stream: 1 for a q out of range, 15, 13; otherwise how many words were written.
#[unsafe(no_mangle)]
pub extern "C" fn sbc_unpack(q: u64, count: u64, bytes: &[u8], out: &mut [u8]) -> u64
    ensures answer { result ≡ word_of (answer_of
        (unpack_into q count (length out.old) bytes.now)) }
    ensures written { out.new ≡ output_of
        (unpack_into q count (length out.old) bytes.now) out.old }
{
    sbc::sbc_unpack(q, count, bytes, out)
}

// The recordings that stand one after the other in the words, as many as the depth says, woven: 16 for a depth that is
// not 2 to 16 or does not divide the number of words, 13; otherwise how many words were written.
#[unsafe(no_mangle)]
pub extern "C" fn sbc_weave(depth: u64, words: &[u8], out: &mut [u8]) -> u64
    ensures answer { result ≡ word_of (answer_of
        (weave_into depth (length out.old) words.now)) }
    ensures written { out.new
        ≡ output_of (weave_into depth (length out.old) words.now) out.old }
{
    sbc::sbc_weave(depth, words, out)
}

// The recordings that are woven in the words, one after the other: 16 and 13 as for weaving; otherwise how many words
// were written.
#[unsafe(no_mangle)]
pub extern "C" fn sbc_unweave(depth: u64, words: &[u8], out: &mut [u8]) -> u64
    ensures answer { result ≡ word_of (answer_of
        (unweave_into depth (length out.old) words.now)) }
    ensures written { out.new
        ≡ output_of (unweave_into depth (length out.old) words.now) out.old }
{
    sbc::sbc_unweave(depth, words, out)
}

// Blocks recorded under a record as a bit stream: the record's refusals, 15 for too many words, 13, 11 with the place
// of the first bad block; otherwise how many bytes were written.
#[unsafe(no_mangle)]
pub extern "C" fn sbc_encode_stream(bytes: &[u8], blocks: &[u8], out: &mut [u8]) -> u64
    ensures answer { result ≡ word_of (answer_of
        (encode_stream bytes.now (length out.old) blocks.now)) }
    ensures written { out.new ≡ output_of
        (encode_stream bytes.now (length out.old) blocks.now) out.old }
{
    sbc::sbc_encode_stream(bytes, blocks, out)
}

// The `count` words of a bit stream decoded under a record: the record's refusals, 15, 12, 13; otherwise how many
// blocks were written.
#[unsafe(no_mangle)]
pub extern "C" fn sbc_decode_stream(bytes: &[u8], count: u64, stream: &[u8], out: &mut [u8]) -> u64
    ensures answer { result ≡ word_of (answer_of
        (decode_stream bytes.now count (length out.old) stream.now)) }
    ensures written { out.new ≡ output_of
        (decode_stream bytes.now count (length out.old) stream.now)
        out.old }
{
    sbc::sbc_decode_stream(bytes, count, stream, out)
}

// How many words of a stream, in front, encoding the decoded blocks gives back, all of them exactly if they are a
// recording: the record's refusals, 15, 12; otherwise their number.
#[unsafe(no_mangle)]
pub extern "C" fn sbc_verify_stream(bytes: &[u8], count: u64, stream: &[u8]) -> u64
    ensures answer { result ≡ word_of (answer_of (verify_stream bytes.now count stream.now)) }
{
    sbc::sbc_verify_stream(bytes, count, stream)
}

// The numbers of a record, one byte each: p, q, states less one, m, a, K, constraint start, tail datum. The record's
// refusals, 13; otherwise 8.
#[unsafe(no_mangle)]
pub extern "C" fn sbc_info(bytes: &[u8], out: &mut [u8]) -> u64
    ensures answer { result ≡ word_of (answer_of (info_under bytes.now (length out.old))) }
    ensures written { out.new
        ≡ output_of (info_under bytes.now (length out.old)) out.old }
{
    sbc::sbc_info(bytes, out)
}

// A record with another tail datum: the record's refusals, 7 for a datum of 2^p or more, 13; otherwise how many bytes
// were written, as many as the record has.
#[unsafe(no_mangle)]
pub extern "C" fn sbc_with_tail(bytes: &[u8], datum: u64, out: &mut [u8]) -> u64
    ensures answer { result ≡ word_of (answer_of
        (closed_with bytes.now datum (length out.old))) }
    ensures written { out.new
        ≡ output_of (closed_with bytes.now datum (length out.old)) out.old }
{
    sbc::sbc_with_tail(bytes, datum, out)
}

// A job compiled to a record: 8 below four bytes, 1, K by 2, 8, next states by 2, 3, 4, 5, 6, 13; otherwise how many
// bytes were written.
#[unsafe(no_mangle)]
pub extern "C" fn sbc_compile(job: &[u8], out: &mut [u8]) -> u64
    ensures answer { result ≡ word_of (answer_of (compile_job job.now (length out.old))) }
    ensures written { out.new
        ≡ output_of (compile_job job.now (length out.old)) out.old }
{
    sbc::sbc_compile(job, out)
}

// A run-length job compiled to a record: 8, 1, 2, 3, 4, 5, 6, 13; otherwise how many bytes were written.
#[unsafe(no_mangle)]
pub extern "C" fn sbc_compile_run_length(job: &[u8], out: &mut [u8]) -> u64
    ensures answer { result ≡ word_of (answer_of (compile_run_length job.now (length out.old))) }
    ensures written { out.new
        ≡ output_of (compile_run_length job.now (length out.old)) out.old }
{
    sbc::sbc_compile_run_length(job, out)
}

// A job with two constraints compiled to a record for both: 8 below four bytes, 1, for each constraint 8 for a missing
// K, K by 2, 8, next states by 2; 14, 3, 4, 5, 6, 13; otherwise how many bytes were written.
#[unsafe(no_mangle)]
pub extern "C" fn sbc_compile_joined(job: &[u8], out: &mut [u8]) -> u64
    ensures answer { result ≡ word_of (answer_of (compile_joined job.now (length out.old))) }
    ensures written { out.new
        ≡ output_of (compile_joined job.now (length out.old)) out.old }
{
    sbc::sbc_compile_joined(job, out)
}

// The listing of a run-length job: 8, 1, 2, 3, 4, 5, 6, 13; otherwise how many bytes were written.
#[unsafe(no_mangle)]
pub extern "C" fn sbc_listing(job: &[u8], out: &mut [u8]) -> u64
    ensures answer { result ≡ word_of (answer_of (list_into job.now (length out.old))) }
    ensures written { out.new
        ≡ output_of (list_into job.now (length out.old)) out.old }
{
    sbc::sbc_listing(job, out)
}

// The words of a refusal by its number, and no byte for a number that is no refusal: 13; otherwise how many bytes were
// written.
#[unsafe(no_mangle)]
pub extern "C" fn sbc_phrase(number: u64, out: &mut [u8]) -> u64
    ensures answer { result ≡ word_of (answer_of (phrase_into number (length out.old))) }
    ensures written { out.new
        ≡ output_of (phrase_into number (length out.old)) out.old }
{
    sbc::sbc_phrase(number, out)
}

// The version of the library: 10,000 times the major number, plus 100 times the minor number, plus the patch.
#[unsafe(no_mangle)]
pub extern "C" fn sbc_version() -> u64
    ensures answer { result ≡ version }
{
    sbc::sbc_version()
}
