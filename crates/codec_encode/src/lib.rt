// Encoding under a table: "N blocks give N + a words: the blocks from state 0, then a blocks" of the tail datum.
#![tactic(auto)]

ghost use Rattle.std.specs.Prelude.{◌≡◌, ◌+◌, ltb, length};
ghost use Rattle.answer.specs.Outcomes.{answer_of, output_of};
ghost use Rattle.codec.specs.With.{encoded_with};

use answer::Refusal;
use answer::bytes::check_below;
use codec_spell::write_recording;
use table::Table;
use table::lent::Edges;

// Whether `room` bytes are too few for `count` words and `closing` more.
fn lacks_room(room: usize, count: usize, closing: usize) -> bool
    ensures answer { result ≡ ltb room (count + closing) }
{
    room < count || room - count < closing
}

// The recording of the blocks under the table, in the output. Declines with 7 for a value of the struct that no record
// gives, then 13, then 11: a bad block is answered only where there is room.
pub fn encode_with(t: Table, blocks: &[u8], out: &mut [u8]) -> Result<usize, Refusal>
    ensures answer { result ≡ answer_of (encoded_with t (length out.old) blocks.now) }
    ensures written { out.new
        ≡ output_of (encoded_with t (length out.old) blocks.now) out.old }
{
    if !t.is_ready() {
        return Err(Refusal::Field);
    }
    let edges = Edges::of(&t);
    if lacks_room(out.len(), blocks.len(), t.lookahead) {
        return Err(Refusal::ShortOutput);
    }
    check_below(blocks, edges.ways)?;
    let end = blocks.len() + t.lookahead;
    write_recording(edges, blocks, t.tail, end, out);
    Ok(end)
}
