// Sets of pairs of states, for each first state a set of second states, and where two edges with one word lead them.
#![tactic(auto)]

ghost use Rattle.std.specs.Prelude.{Some, None, ◌≡◌, true, ◌&&◌, ◌||◌, ℕ, ◌<◌, eqb};
ghost use Rattle.laws.specs.Lists.{any};
ghost use Rattle.table.specs.Marks.{some};
ghost use Rattle.table.specs.Edges.{places};
ghost use Rattle.table.specs.Lent.{edges_in};
ghost use Rattle.bitsets.specs.BitSets.{holds, members_of, set_at};
ghost use Rattle.table_words.specs.Gathered.{Gathered, holds_in};
ghost use Rattle.window_pairs.specs.PairSets.{Long, takes, joins, joins_by, clashes_by, Marked};

use crate::sets::clear;
use bitsets::BitSet;
use table::linked::Chains;
use table_words::{gather, union_of};

pub mod sets;

// The states of the sets whose numbers are in the set, where `joined` are those of the sets in `last`: no set is
// joined twice in a row.
fn union_again(sets: &[BitSet; 128], last: BitSet, joined: BitSet, set: BitSet) -> BitSet
    requires { (u : ℕ) → holds joined u ≡ any (holds_in sets.now u) (members_of last) }
    ensures answer { (u : ℕ) → holds result u ≡ any (holds_in sets.now u) (members_of set) }
{
    if last == set {
        return joined;
    }
    union_of(sets, set)
}

// Whether the edge i carries the datum k; where there is none, any edge is taken.
fn is_taken(k: Option<usize>, i: usize) -> bool
    ensures answer { result ≡ takes k i }
{
    match k {
        Some(datum) => i % 16 == datum,
        None => true,
    }
}

// Puts the states into row u.
fn put_into(u: usize, states: BitSet, out: &mut [BitSet; 128])
    requires { (u < 128) × Long out.old }
    ensures written { Long out.new × ((x y : ℕ) → holds (set_at out.new x) y
        ≡ (holds (set_at out.old x) y || (eqb u x && holds states y))) }
{
    out[u] = out[u].join(states);
}

// Marks where the edges with the word w that carry the datum k, or all where there is none, lead from the pairs
// together with the edges that do not carry it, which are gathered in `targets`.
fn mark_edges(
    chains: &Chains,
    pairs: &[BitSet; 128],
    w: usize,
    k: Option<usize>,
    have: BitSet,
    targets: &[BitSet; 128],
    out: &mut [BitSet; 128],
)
    requires { (w < 256) × Gathered (edges_in chains.now.edges) w k have targets.now × Long out.old }
    ensures written { Marked out.old (joins (edges_in chains.now.edges) pairs.now w k)
        (places (edges_in chains.now.edges)) out.new }
{
    let mut last = BitSet::none();
    let mut joined = BitSet::none();
    let mut at = chains.last(w);
    while let Some(i) = at {
        if is_taken(k, i) {
            let set = pairs[i / 16].meet(have);
            joined = union_again(targets, last, joined, set);
            last = set;
            put_into(chains.edges.next[i] as usize, joined, out);
        }
        at = chains.before(i);
    }
}

// Marks where two edges with the word w lead from the pairs, of which one carries the datum k and the other does not;
// where there is no datum, any two. The sets in `targets` are written over.
fn mark_word(
    chains: &Chains,
    pairs: &[BitSet; 128],
    w: usize,
    k: Option<usize>,
    targets: &mut [BitSet; 128],
    out: &mut [BitSet; 128],
)
    requires { (w < 256) × Long targets.old × Long out.old }
    ensures written { Marked out.old (joins (edges_in chains.now.edges) pairs.now w k)
        (places (edges_in chains.now.edges)) out.new }
    ensures kept { Long targets.new }
{
    let have = gather(chains, w, k, targets);
    mark_edges(chains, pairs, w, k, have, targets, out);
}

// Puts into `out` where two edges with one word lead from the pairs.
pub fn step_pairs(chains: &Chains, pairs: &[BitSet; 128], out: &mut [BitSet; 128])
    requires { Long out.old }
    ensures written { Long out.new × ((u v : ℕ) → u < chains.now.edges.states → holds (set_at out.new u) v
        ≡ some (joins_by (edges_in chains.now.edges) pairs.now None u v) 256) }
{
    clear(chains.edges.states, out);
    let mut targets = [BitSet::none(); 128];
    for w in 0..256 {
        mark_word(chains, pairs, w, None, &mut targets, out);
    }
}

// Marks where two edges with the word w and different data lead from the pairs.
fn mark_clashes(
    chains: &Chains,
    pairs: &[BitSet; 128],
    w: usize,
    targets: &mut [BitSet; 128],
    out: &mut [BitSet; 128],
)
    requires { (w < 256) × Long targets.old × Long out.old }
    ensures written { Marked out.old (λ u v d. joins_by (edges_in chains.now.edges) pairs.now (Some d) u v w)
        chains.now.edges.ways out.new }
    ensures kept { Long targets.new }
{
    for datum in 0..chains.edges.ways {
        mark_word(chains, pairs, w, Some(datum), targets, out);
    }
}

// Puts into `out` where two edges with one word and different data lead from the pairs. The edges with one word are met
// for all data in a row.
pub fn clash_pairs(chains: &Chains, pairs: &[BitSet; 128], out: &mut [BitSet; 128])
    requires { Long out.old }
    ensures written { Long out.new × ((u v : ℕ) → u < chains.now.edges.states → holds (set_at out.new u) v
        ≡ some (clashes_by (edges_in chains.now.edges) pairs.now u v) 256) }
{
    clear(chains.edges.states, out);
    let mut targets = [BitSet::none(); 128];
    for w in 0..256 {
        mark_clashes(chains, pairs, w, &mut targets, out);
    }
}
