// Words of q bits as a bit stream, "eight to the byte, first bit highest, last byte filled with 0", and back.
#![tactic(auto)]

ghost use Rattle.std.specs.Prelude.{◌≡◌, ◌+◌, ◌*◌, ◌-◌, ◌≤◌, eqb, length};
ghost use Rattle.bits.specs.Fields.{bits_of, field};
ghost use Rattle.answer.specs.Outcomes.{answer_of, output_of};
ghost use Rattle.stream_pack.specs.Streams.{limit, stream_size, good_width, good_stream, pack_into, unpack_into};

pub mod reading;
pub mod writing;

use answer::Refusal;
use answer::bytes::check_below;
use bits::{get, power};
use reading::get_words;
use writing::put_words;

// The most words of a stream.
pub const LIMIT: usize = 1000000;

// How many bytes a stream of `count` words has.
pub fn stream_size(q: usize, count: usize) -> usize
    requires { (q ≤ 8) × (count ≤ limit) }
    ensures answer { result ≡ stream_size q count }
{
    (count * q + 7) / 8
}

// Whether q is 1 to 8.
fn is_width(q: usize) -> bool
    ensures answer { result ≡ good_width q }
{
    (1..=8).contains(&q)
}

// Whether the bits of the bytes after the place `at` are all 0; they are fewer than eight.
fn is_filled(bytes: &[u8], at: usize) -> bool
    requires { (length bytes.now ≤ limit) × (at ≤ 8 * length bytes.now) × (8 * length bytes.now ≤ at + 7) }
    ensures answer { result ≡ eqb (field (bits_of bytes.now) at (8 * length bytes.now - at)) 0 }
{
    get(bytes, at, 8 * bytes.len() - at) == 0
}

// Whether the bytes are a stream of `count` words: 15 otherwise. The limit is looked at before the count is multiplied.
pub fn is_stream(q: usize, count: usize, bytes: &[u8]) -> bool
    requires { q ≤ 8 }
    ensures answer { result ≡ good_stream q count bytes.now }
{
    count <= LIMIT && bytes.len() == stream_size(q, count) && is_filled(bytes, count * q)
}

// The stream of the words in the output. Declines with 1, 15, 13, then 11 with the place of the first bad word.
pub fn pack(q: usize, words: &[u8], out: &mut [u8]) -> Result<usize, Refusal>
    ensures answer { result ≡ answer_of (pack_into q (length out.old) words.now) }
    ensures written { out.new ≡ output_of (pack_into q (length out.old) words.now) out.old }
{
    if !is_width(q) {
        return Err(Refusal::Parameters);
    }
    if LIMIT < words.len() {
        return Err(Refusal::Stream);
    }
    let size = stream_size(q, words.len());
    if out.len() < size {
        return Err(Refusal::ShortOutput); // 13 comes before 11
    }
    check_below(words, power(q))?;
    put_words(q, words, out);
    Ok(size)
}

// The words of a stream in the output. Declines with 1, 15, 13.
pub fn unpack(q: usize, count: usize, bytes: &[u8], out: &mut [u8]) -> Result<usize, Refusal>
    ensures answer { result ≡ answer_of (unpack_into q count (length out.old) bytes.now) }
    ensures written { out.new
        ≡ output_of (unpack_into q count (length out.old) bytes.now) out.old }
{
    if !is_width(q) {
        return Err(Refusal::Parameters);
    }
    if !is_stream(q, count, bytes) {
        return Err(Refusal::Stream);
    }
    if out.len() < count {
        return Err(Refusal::ShortOutput);
    }
    get_words(bytes, q, count, out);
    Ok(count)
}
