// The blocks of words, read one by one into lent bytes.
#![tactic(auto)]

ghost use Rattle.std.specs.Prelude.{◌≡◌, ◌++◌, map, ◌+◌, ◌≤◌, ◌<◌, length, drop};
ghost use Rattle.laws.specs.Lists.{from};
ghost use Rattle.table.specs.Edges.{rows_of};
ghost use Rattle.codec_groups.specs.Lent.{lent_edges};
ghost use Rattle.codec_steps.specs.Reading.{block};
ghost use Rattle.codec_steps.specs.BlockParts.{under};

use codec_block::blocks::read_block;
use codec_groups::groups::GroupedEdges;

// So many blocks of the words, from block `begin` on, at the start of the output.
pub fn read_blocks(
    grouped: &GroupedEdges,
    words: &[u8],
    begin: usize,
    m: usize,
    a: usize,
    count: usize,
    out: &mut [u8],
)
    requires { (begin + count + a ≤ length words.now) × (count ≤ length out.old) }
    ensures written { out.new ≡ map (block (under (rows_of (lent_edges grouped.now)) m a) words.now)
        (from begin count) ++ drop count out.old }
{
    for i in 0..count {
        out[i] = read_block(grouped, words, begin + i, m, a);
    }
}

// Block i of the words. It goes through `read_blocks`, so that reading a block has one caller and becomes part of its
// loop.
pub fn block_at(grouped: &GroupedEdges, words: &[u8], i: usize, m: usize, a: usize) -> u8
    requires { i + a < length words.now }
    ensures answer { result ≡ block (under (rows_of (lent_edges grouped.now)) m a) words.now i }
{
    let mut out = [0u8; 1];
    read_blocks(grouped, words, i, m, a, 1, &mut out);
    out[0]
}
