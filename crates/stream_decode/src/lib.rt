// Decoding from a bit stream under a table: in parts of 1,024 blocks, so that no more memory is needed than for the
// words of one part. The reading of a block depends on its window alone.
#![tactic(auto)]

ghost use Rattle.std.specs.Prelude.{◌≡◌, ◌++◌, map, ◌+◌, ◌*◌, ◌-◌, ◌%◌, ◌≤◌, min, length, take, drop};
ghost use Rattle.laws.specs.Lists.{range, from};
ghost use Rattle.answer.specs.Outcomes.{answer_of, output_of};
ghost use Rattle.table.specs.Edges.{rows_of};
ghost use Rattle.table.specs.Lent.{edges_in};
ghost use Rattle.codec_groups.specs.Lent.{lent_edges};
ghost use Rattle.codec_steps.specs.Reading.{block};
ghost use Rattle.codec_steps.specs.BlockParts.{under};
ghost use Rattle.stream_pack.specs.Streams.{limit, unpacked};
ghost use Rattle.stream.specs.Recorded.{unstreamed_with};

use answer::Refusal;
use bitsets::BitSet;
use codec_blocks::read_blocks;
use codec_groups::groups::GroupedEdges;
use stream_pack::is_stream;
use stream_pack::reading::get_words;
use table::Table;
use table::lent::Edges;

// The smaller of two numbers.
pub fn smaller(x: usize, y: usize) -> usize
    ensures answer { result ≡ min x y }
{
    x.min(y)
}

// The blocks from i on to `end` of the words of a stream, up to 1,024 of them, at their places.
fn read_part(
    grouped: &GroupedEdges,
    stream: &[u8],
    count: usize,
    m: usize,
    a: usize,
    i: usize,
    end: usize,
    out: &mut [u8],
)
    requires { (count ≤ limit) × (count * grouped.now.edges.q ≤ 8 * length stream.now) × (m ≤ 15) × (a ≤ 15)
        × (i % 8 ≡ 0) × (i ≤ end) × (end ≤ i + 1024) × (end + a ≤ count) × (end ≤ length out.old) }
    ensures written { out.new
        ≡ (take i out.old
        ++ map (block (under (rows_of (lent_edges grouped.now)) m a)
        (unpacked grouped.now.edges.q count stream.now)) (from i (end - i)))
        ++ drop end out.old }
{
    // 16 words before block i, which no memory exceeds and where a byte starts, or the first of all.
    let base = i.saturating_sub(16);
    let q = grouped.edges.q;
    let skip = base / 8 * q;
    let mut words = [0u8; 1055];
    get_words(&stream[skip..], q, smaller(count - base, 1055), &mut words);
    read_blocks(grouped, &words, i - base, m, a, end - i, &mut out[i..]);
}

// The first `blocks` blocks of the words of a stream in the output, part by part.
fn read_parts(
    grouped: &GroupedEdges,
    stream: &[u8],
    count: usize,
    m: usize,
    a: usize,
    out: &mut [u8],
)
    requires { (count ≤ limit) × (count * grouped.now.edges.q ≤ 8 * length stream.now) × (m ≤ 15) × (a ≤ 15)
        × (a ≤ count) × (count - a ≤ length out.old) }
    ensures written { out.new
        ≡ map (block (under (rows_of (lent_edges grouped.now)) m a)
        (unpacked grouped.now.edges.q count stream.now)) (range (count - a)) ++ drop (count - a) out.old }
{
    let blocks = count - a;
    let mut i = 0;
    while i < blocks {
        let end = smaller(i + 1024, blocks);
        read_part(grouped, stream, count, m, a, i, end, out);
        i += 1024;
    }
}

// The blocks of the `count` words of a stream at the start of the output, by the groups of the table's edges.
fn read_all(edges: Edges, stream: &[u8], count: usize, m: usize, a: usize, out: &mut [u8])
    requires { (count ≤ limit) × (count * edges.q ≤ 8 * length stream.now) × (m ≤ 15) × (a ≤ 15) × (a ≤ count)
        × (count - a ≤ length out.old) }
    ensures written { out.new
        ≡ map (block (under (rows_of (edges_in edges.entry)) m a)
        (unpacked edges.entry.q count stream.now)) (range (count - a)) ++ drop (count - a) out.old }
{
    let mut start = [0u16; 257];
    let mut first = [0u16; 2048];
    let mut sets = [BitSet { low: 0, high: 0 }; 2304];
    let grouped = GroupedEdges::of(edges, &mut start, &mut first, &mut sets);
    read_parts(&grouped, stream, count, m, a, out);
}

// The blocks of the `count` words of a stream under the table, in the output. Declines with 7 for a value of the struct
// that no record gives, then 15, 12, 13.
pub fn decode_stream_with(
    t: Table,
    count: usize,
    stream: &[u8],
    out: &mut [u8],
) -> Result<usize, Refusal>
    ensures answer { result ≡ answer_of (unstreamed_with t count (length out.old) stream.now) }
    ensures written { out.new
        ≡ output_of (unstreamed_with t count (length out.old) stream.now) out.old }
{
    if !t.is_ready() {
        return Err(Refusal::Field);
    }
    let a = t.lookahead;
    let good = is_stream(t.q, count, stream);
    if !good {
        return Err(Refusal::Stream);
    }
    if count < a {
        return Err(Refusal::TooFewWords);
    }
    if out.len() < count - a {
        return Err(Refusal::ShortOutput);
    }
    read_all(Edges::of(&t), stream, count, t.memory, a, out);
    Ok(count - a)
}
