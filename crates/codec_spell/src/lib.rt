// The words of a path, written into lent bytes: those of blocks from state 0, those of closing blocks of one datum from
// any state, and the two one after the other, a recording.
#![tactic(auto)]

ghost use Rattle.std.specs.Prelude.{◌≡◌, ◌++◌, ◌-◌, ◌≤◌, ◌<◌, length, get_or, take, drop, replicate};
ghost use Rattle.laws.specs.Sums.{Below};
ghost use Rattle.table.specs.Paths.{ends, spells};
ghost use Rattle.table.specs.Edges.{rows_of};
ghost use Rattle.table.specs.Lent.{edges_in};

use table::lent::Edges;

// Block i, and the tail datum after the last block.
pub fn datum_at(blocks: &[u8], i: usize, tail: usize) -> usize
    ensures answer { result ≡ get_or blocks.now i tail }
{
    match blocks.get(i) {
        Some(block) => *block as usize,
        None => tail,
    }
}

// The words of the blocks from state 0 in the output, and the state in which they end.
#[tactic(auto, using(laws::proofs::Lists::below_at))]
pub fn write_blocks(edges: Edges, blocks: &[u8], out: &mut [u8]) -> usize
    requires { Below edges.ways blocks.now × (length blocks.now ≤ length out.old) }
    ensures answer { (result ≡ ends (rows_of (edges_in edges.entry)) 0 blocks.now)
        × (result < edges.entry.states) }
    ensures written { out.new
        ≡ spells (rows_of (edges_in edges.entry)) 0 blocks.now ++ drop (length blocks.now) out.old }
{
    let mut reached = 0;
    for i in 0..blocks.len() {
        let edge = reached * 16 + blocks[i] as usize;
        out[i] = edges.word[edge];
        reached = edges.next[edge] as usize;
    }
    reached
}

// The words of closing blocks of a datum from a state, from place `at` of the output to `end`.
pub fn write_closing(
    edges: Edges,
    state: usize,
    datum: usize,
    at: usize,
    end: usize,
    out: &mut [u8],
)
    requires { (datum < edges.ways) × (state < edges.states) × (at ≤ end) × (end ≤ length out.old) }
    ensures written { out.new
        ≡ (take at out.old ++ spells (rows_of (edges_in edges.entry)) state (replicate (end - at) datum))
        ++ drop end out.old }
{
    let mut current = state;
    for i in at..end {
        let place = current * 16 + datum;
        out[i] = edges.word[place];
        current = edges.next[place] as usize;
    }
}

// The words of the blocks from state 0 and of copies of the tail datum after them, `count` in all, in the output.
pub fn write_recording(edges: Edges, blocks: &[u8], tail: usize, count: usize, out: &mut [u8])
    requires { Below edges.ways blocks.now × (tail < edges.ways) × (length blocks.now ≤ count)
        × (count ≤ length out.old) }
    ensures written { out.new
        ≡ spells (rows_of (edges_in edges.entry)) 0 (blocks.now ++ replicate (count - length blocks.now) tail)
        ++ drop count out.old }
{
    let state = write_blocks(edges, blocks, out);
    write_closing(edges, state, tail, blocks.len(), count, out);
}
