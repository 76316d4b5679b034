// The calls that cases of test vectors make, by kind.
ghost use Rattle.std.specs.Prelude.{◌≡◌, ◌≤◌, length};
ghost use Rattle.vectors.specs.Calling.{told_of, told_of_set, Called};

use answer::{Refusal, answer_number, answer_value};
use codec_record::decoding::decode;
use codec_record::encoding::encode;
use codec_verify::verify;
use compile::bytes::{compile_job, compile_joined, compile_run_length};
use judging::Told;
use record_check::check;
use record_tail::with_tail;
use set_check::{check_set, set_number, set_value};
use stream_pack::{pack, unpack};
use stream_record::{decode_stream, encode_stream};
use stream_verify::verify_stream;
use view_job::{list_run_length, tell_refusal};
use weaving::{unweave, weave};

// The number and the value of an answer.
fn told_by(a: Result<usize, Refusal>) -> Told
    ensures answer { result ≡ told_of a }
{
    Told {
        number: answer_number(a),
        value: answer_value(a),
    }
}

// The walk of a set.
fn walk_set(set: &[u8]) -> Told
    ensures answer { result ≡ told_of_set set.now }
{
    let a = check_set(set);
    Told {
        number: set_number(a),
        value: set_value(a),
    }
}

// The text of the listing program in the output: the listing of a job, or `refused` and the number.
fn list_or_tell(job: &[u8], out: &mut [u8]) -> Result<usize, Refusal> {
    match list_run_length(job, out) {
        Err(r) if r.number() != 13 => tell_refusal(r, out),
        answer => answer,
    }
}

// Byte i, and 0 past the end.
fn byte_at(bytes: &[u8], i: usize) -> u8 {
    bytes.get(i).map_or(0, |byte| *byte)
}

// The number in eight bytes from a place on, most significant first.
fn number_at(bytes: &[u8], at: usize) -> usize
    requires { at ≤ 1 }
{
    let mut n: usize = 0;
    for i in 0..8 {
        n = (n << 8) | (byte_at(bytes, at + i) as usize);
    }
    n
}

// The bytes of a stream that stands after its number of words.
fn stream_of(counted: &[u8]) -> &[u8] {
    if counted.len() < 8 {
        b""
    } else {
        &counted[8..]
    }
}

// The call of a kind: 1 compiles a job, 2 a run-length job, 3 checks a record, 4 encodes, 5 decodes, 6 walks a set, 7
// lists, 8 compiles a job with two constraints, 9 packs, 10 unpacks, 11 encodes to a stream, 12 decodes one, 13 writes a
// record with another tail datum, 14 weaves, 15 unweaves, 16 verifies words and 17 a stream.
pub fn call(kind: usize, first: &[u8], second: &[u8], out: &mut [u8]) -> Told
    ensures answer { Called kind first.now second.now (length out.old) result }
{
    // The kinds are the numbers that the file gives them, by which `Called` names them too.
    match kind {
        1 => told_by(compile_job(first, out)),
        2 => told_by(compile_run_length(first, out)),
        3 => told_by(check(first)),
        4 => told_by(encode(first, second, out)),
        5 => told_by(decode(first, second, out)),
        6 => walk_set(first),
        0 | 7 => told_by(list_or_tell(first, out)),
        8 => told_by(compile_joined(first, out)),
        9 => told_by(pack(byte_at(first, 0) as usize, second, out)),
        10 => {
            let q = byte_at(first, 0) as usize;
            told_by(unpack(q, number_at(first, 1), second, out))
        }
        11 => told_by(encode_stream(first, second, out)),
        12 => {
            let count = number_at(second, 0);
            told_by(decode_stream(first, count, stream_of(second), out))
        }
        13 => told_by(with_tail(first, number_at(second, 0), out)),
        14 => told_by(weave(number_at(first, 0), second, out)),
        15 => told_by(unweave(number_at(first, 0), second, out)),
        16 => told_by(verify(first, second)),
        _ => {
            let count = number_at(second, 0);
            told_by(verify_stream(first, count, stream_of(second)))
        }
    }
}
