// Whether the words of a bit stream are a recording, in parts of 1,024 words, so that no more memory is needed than for
// the words of one part.
#![tactic(auto)]

ghost use Rattle.std.specs.Prelude.{◌≡◌, ◌*◌, ◌≤◌, length};
ghost use Rattle.answer.specs.Outcomes.{answer_of};
ghost use Rattle.table.specs.Lent.{edges_in};
ghost use Rattle.stream_pack.specs.Streams.{limit, unpacked};
ghost use Rattle.codec_verify.specs.Counting.{come_back};
ghost use Rattle.codec_verify.specs.Verify.{verify_stream};
ghost use Rattle.stream_verify.specs.With.{verified_stream_with};

use crate::parts::count_parts;
use answer::Refusal;
use bitsets::BitSet;
use codec_groups::groups::GroupedEdges;
use codec_verify::{Sizes, sizes_of};
use record_check::load;
use stream_pack::is_stream;
use table::Table;
use table::lent::Edges;

pub mod part;
pub mod parts;

// How many words of the `count` words of a stream come back, with the groups of the table's edges laid.
fn count_stream(k: Sizes, edges: Edges, stream: &[u8], count: usize) -> usize
    requires { (k.q ≤ 8) × (count ≤ limit) × (count * k.q ≤ 8 * length stream.now) × (k.memory ≤ 15)
        × (k.lookahead ≤ 15) × (k.lookahead ≤ count) }
    ensures answer { result ≡ come_back (edges_in edges.entry) k (unpacked k.q count stream.now) }
{
    let mut start = [0u16; 257];
    let mut first = [0u16; 2048];
    let mut sets = [BitSet { low: 0, high: 0 }; 2304];
    let grouped = GroupedEdges::of(edges, &mut start, &mut first, &mut sets);
    count_parts(k, &grouped, stream, count)
}

// How many words of the `count` words of a stream come back under the table. Declines with 7 for a value of the struct
// that no record gives, then 15, 12.
pub fn verify_stream_with(t: Table, count: usize, stream: &[u8]) -> Result<usize, Refusal>
    ensures answer { result ≡ answer_of (verified_stream_with t count stream.now) }
{
    if !t.is_ready() {
        return Err(Refusal::Field);
    }
    if !is_stream(t.q, count, stream) {
        return Err(Refusal::Stream);
    }
    if count < t.lookahead {
        return Err(Refusal::TooFewWords);
    }
    Ok(count_stream(sizes_of(t), Edges::of(&t), stream, count))
}

// The same under the record in the bytes: all of the words exactly if they are a recording. Declines with the record's
// refusal, then 15, 12.
pub fn verify_stream(bytes: &[u8], count: usize, stream: &[u8]) -> Result<usize, Refusal>
    ensures answer { result ≡ answer_of (verify_stream bytes.now count stream.now) }
{
    verify_stream_with(load(bytes)?, count, stream)
}
