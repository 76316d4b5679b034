// The groups of all words laid out in a row, word by word.
ghost use Rattle.std.specs.Prelude.{◌≡◌, ℕ, ◌+◌, ◌*◌, ◌≤◌, ◌<◌, T, length};
ghost use Rattle.table.specs.Lent.{edges_in};
ghost use Rattle.bitsets.specs.BitSets.{holds, members_of};
ghost use Rattle.codec_groups.specs.Groups.{first_edge, Grouped, PutAll};

use crate::{put_group, put_have};
use bitsets::BitSet;
use table::chains::wide;
use table::lent::Edges;
use table::linked::Chains;
use table_words::gather;

// The first edge of the state s with the word w, or the place after its edges.
fn first_edge(edges: Edges, w: usize, s: usize) -> usize
    requires { s < 128 }
    ensures answer { result ≡ first_edge edges.entry.ways edges.entry.word.now w s }
{
    let end = s * 16 + edges.ways;
    for e in s * 16..end {
        if wide(edges.word[e]) == w {
            return e;
        }
    }
    end
}

// Writes a group for each state of the set, from group `at` on.
fn put_groups(
    edges: Edges,
    w: usize,
    at: usize,
    have: BitSet,
    targets: &[BitSet; 128],
    first: &mut [u16; 2048],
    sets: &mut [BitSet],
)
    requires { (at + length (members_of have) ≤ 2048)
        × ((s : ℕ) → s < 128 → T (holds have s) → first_edge edges.ways edges.word.now w s < 2048)
        × (length first.old ≡ 2048) × (at + length (members_of have) ≤ length sets.old) }
    ensures written { PutAll first.old sets.old at (members_of have)
        (first_edge edges.entry.ways edges.entry.word.now w) targets.now first.new sets.new }
{
    let mut left = have;
    let mut k = at;
    while let Some(s) = left.pop() {
        put_group(k, first_edge(edges, w, s), targets[s], first, sets);
        k += 1;
    }
}

// The groups of all words. It stays apart from its callers, which make the chains in place and lend them.
#[inline(never)]
pub fn lay(chains: &Chains, start: &mut [u16; 257], first: &mut [u16; 2048], sets: &mut [BitSet])
    requires { (length first.old ≡ 2048) × (chains.now.edges.states * 16 ≤ length sets.old) }
    ensures written { Grouped (edges_in chains.now.edges) start.new first.new sets.new }
{
    let words = bits::power(chains.edges.q);
    let mut targets = [BitSet::none(); 128];
    *start = [0u16; 257];
    let mut k = 0;
    for w in 0..words {
        let have = gather(chains, w, None, &mut targets);
        put_groups(chains.edges, w, k, have, &targets, first, sets);
        put_have(w, have, sets);
        k += have.count() as usize;
        start[w + 1] = k as u16;
    }
}
