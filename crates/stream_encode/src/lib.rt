// Encoding to a bit stream under a table: each word of the recording is put after the one before it as the blocks are
// walked.
#![tactic(auto)]

ghost use Rattle.std.specs.Prelude.{◌≡◌, ◌++◌, ◌-◌, ◌≤◌, ◌<◌, length, drop, replicate};
ghost use Rattle.laws.specs.Sums.{Below};
ghost use Rattle.answer.specs.Outcomes.{answer_of, output_of};
ghost use Rattle.table.specs.Paths.{spells};
ghost use Rattle.table.specs.Edges.{rows_of};
ghost use Rattle.table.specs.Lent.{edges_in};
ghost use Rattle.stream_pack.specs.Streams.{limit, stream_size, packed};
ghost use Rattle.stream.specs.Recorded.{streamed_with};

use answer::Refusal;
use answer::bytes::check_below;
use codec_spell::datum_at;
use stream_pack::writing::Waiting;
use stream_pack::{LIMIT, stream_size};
use table::Table;
use table::lent::Edges;

// The stream of the words of the blocks from state 0 and of copies of the tail datum after them, `count` in all.
fn put_recording(edges: Edges, blocks: &[u8], tail: usize, count: usize, out: &mut [u8])
    requires { Below edges.ways blocks.now × (tail < edges.ways) × (count ≤ limit) × (length blocks.now ≤ count)
        × (stream_size edges.q count ≤ length out.old) }
    ensures written { out.new
        ≡ packed edges.entry.q (spells (rows_of (edges_in edges.entry)) 0
        (blocks.now ++ replicate (count - length blocks.now) tail))
        ++ drop (stream_size edges.entry.q count) out.old }
{
    let mut waiting = Waiting::none();
    let mut state = 0;
    for i in 0..count {
        let edge = state * 16 + datum_at(blocks, i, tail);
        waiting = waiting.put_word(edges.q, edges.word[edge], out);
        state = edges.next[edge] as usize;
    }
    waiting.put_fill(out);
}

// The stream of the recording of the blocks under the table, in the output. Declines with 7 for a value of the struct
// that no record gives, then 15 with the closing words counted, 13, 11.
pub fn encode_stream_with(t: Table, blocks: &[u8], out: &mut [u8]) -> Result<usize, Refusal>
    ensures answer { result ≡ answer_of (streamed_with t (length out.old) blocks.now) }
    ensures written { out.new
        ≡ output_of (streamed_with t (length out.old) blocks.now) out.old }
{
    if !t.is_ready() {
        return Err(Refusal::Field);
    }
    let most = LIMIT - t.lookahead;
    if most < blocks.len() {
        return Err(Refusal::Stream);
    }
    let count = blocks.len() + t.lookahead;
    let size = stream_size(t.q, count);
    if out.len() < size {
        return Err(Refusal::ShortOutput);
    }
    let edges = Edges::of(&t);
    check_below(blocks, edges.ways)?;
    put_recording(edges, blocks, t.tail, count, out);
    Ok(size)
}
