// The words that come back, counted in one pass: each word is spelled as soon as its block is read, so that nothing is
// kept but the state and the place.
ghost use Rattle.std.specs.Prelude.{◌≡◌, ◌*◌, ◌≤◌, ◌<◌, length, get_or};
ghost use Rattle.table.specs.Lent.{edges_in};
ghost use Rattle.codec_groups.specs.Lent.{lent_edges};
ghost use Rattle.codec_verify.specs.Counting.{due_in, come_back};

use crate::Sizes;
use bitsets::BitSet;
use codec_blocks::block_at;
use codec_groups::groups::GroupedEdges;
use table::chains::wide;
use table::lent::Edges;

// Datum i of those whose words the list should have: block i, and the tail datum after the last block.
fn datum_at(k: Sizes, grouped: &GroupedEdges, words: &[u8], i: usize) -> usize
    requires { (k.lookahead ≤ length words.now) × (i < length words.now) }
    ensures answer { result ≡ get_or (due_in (lent_edges grouped.now) k words.now) i 0 }
{
    if words.len() - k.lookahead <= i {
        return k.tail;
    }
    wide(block_at(grouped, words, i, k.memory, k.lookahead))
}

// How many words come back, by the groups of the table's edges.
fn count_words(k: Sizes, grouped: &GroupedEdges, words: &[u8]) -> usize
    requires { k.lookahead ≤ length words.now }
    ensures answer { result ≡ come_back (lent_edges grouped.now) k words.now }
{
    let edges = grouped.edges;
    let mut s = 0;
    for i in 0..words.len() {
        let d = datum_at(k, grouped, words, i);
        if edges.ways <= d {
            return i;
        }
        let e = s * 16 + d;
        if edges.word[e] != words[i] {
            return i;
        }
        s = edges.next[e] as usize;
    }
    words.len()
}

// The same, with the groups laid; their sets are kept in N places.
fn count_with<const N: usize>(k: Sizes, edges: Edges, words: &[u8]) -> usize
    requires { (k.lookahead ≤ length words.now) × (edges.states * 16 ≤ N) × (N ≤ 2304) }
    ensures answer { result ≡ come_back (edges_in edges.entry) k words.now }
{
    let mut start = [0u16; 257];
    let mut first = [0u16; 2048];
    let mut sets = [BitSet { low: 0, high: 0 }; N];
    let grouped = GroupedEdges::of(edges, &mut start, &mut first, &mut sets);
    count_words(k, &grouped, words)
}

// The same, with no more places than the table asks for: no more is cleared than a small table can use.
pub fn count_all(k: Sizes, edges: Edges, words: &[u8]) -> usize
    requires { k.lookahead ≤ length words.now }
    ensures answer { result ≡ come_back (edges_in edges.entry) k words.now }
{
    if edges.states <= 16 {
        count_with::<256>(k, edges, words)
    } else {
        count_with::<2304>(k, edges, words)
    }
}
