// The reach of damage: "Block numbers count data, bit numbers count channel bits, and neither may be passed for the
// other." Only `blocks_of` turns the one into the other.
#![tactic(auto)]

ghost use Rattle.std.specs.Prelude.{◌≡◌, ◌*◌, ◌≤◌, ◌<◌, T};
ghost use Rattle.table.specs.Value.{ready, code_in};
ghost use Rattle.stream_pack.specs.Streams.{limit};
ghost use Rattle.stream_damage.specs.BitReach.{blocks_of, reach_in, reach_under, reach_answer};

use answer::Refusal;
use record_check::load;
use stream_pack::LIMIT;
use table::Table;

// The number of a data block.
#[derive(Clone, Copy)]
pub struct BlockNo(pub usize);

// The number of a channel bit.
#[derive(Clone, Copy)]
pub struct BitNo(pub usize);

// Blocks from the first to the last, both among them. They and `BitRange` are two types and not one of any number, since
// the definitions and the theorems on the reach (`blocks_of`, `reach-exact`) tell blocks and bits apart by these names.
#[derive(Clone, Copy)]
pub struct BlockRange {
    pub first: BlockNo,
    pub last: BlockNo,
}

// Channel bits from the first to the last, both among them.
#[derive(Clone, Copy)]
pub struct BitRange {
    pub first: BitNo,
    pub last: BitNo,
}

// The blocks that can differ when these channel bits are overwritten, under a code with words of q bits, memory m and
// lookahead a.
fn blocks_of(q: usize, m: usize, a: usize, damage: BitRange) -> BlockRange
    requires { (1 ≤ q) × (m ≤ 15) × (a ≤ 15) × (damage.last.0 < limit * q) }
    ensures answer { result ≡ blocks_of q m a damage }
{
    let f = damage.first;
    let l = damage.last;
    BlockRange {
        first: BlockNo((f.0 / q).saturating_sub(a)),
        last: BlockNo(l.0 / q + m),
    }
}

// The blocks that can differ when these channel bits of a stream are overwritten, under a table. Declines with 15 for
// bits past the longest stream.
fn quote(t: Table, damage: BitRange) -> Result<BlockRange, Refusal>
    requires { T (ready t) }
    ensures answer { result ≡ reach_answer (reach_in (code_in t) damage) }
{
    let l = damage.last;
    if l.0 < LIMIT * t.q {
        return Ok(blocks_of(t.q, t.memory, t.lookahead, damage));
    }
    Err(Refusal::Stream)
}

// The blocks that can differ from the data written when these channel bits of a stream are overwritten, under the
// record in the bytes. Declines with the record's refusal, then 15 for bits past the longest stream.
pub fn reach(bytes: &[u8], damage: BitRange) -> Result<BlockRange, Refusal>
    ensures answer { result ≡ reach_answer (reach_under bytes.now damage) }
{
    quote(load(bytes)?, damage)
}
