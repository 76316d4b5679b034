// The edges with one word as sets: the states that have it, and for each of them where it leads.
#![tactic(auto)]

ghost use Rattle.std.specs.Prelude.{◌≡◌, ◌&&◌, ◌||◌, ℕ, ◌<◌, eqb, length, get_or};
ghost use Rattle.laws.specs.Lists.{any};
ghost use Rattle.table.specs.Lent.{edges_in};
ghost use Rattle.bitsets.specs.BitSets.{holds, members_of};
ghost use Rattle.table_words.specs.Gathered.{carries, leaves, led, Gathered, holds_in};

use bitsets::BitSet;
use table::linked::Chains;

// Whether the edge e carries the datum k; where there is none, no edge does.
fn is_carrying(k: Option<usize>, e: usize) -> bool
    ensures answer { result ≡ carries k e }
{
    match k {
        Some(datum) => e % 16 == datum,
        None => false,
    }
}

// Set s of the array where s is in `have`, and no state where it is not.
fn known(have: BitSet, targets: &[BitSet; 128], s: usize) -> BitSet
    requires { s < 128 }
    ensures answer { (u : ℕ) → holds result u ≡ led have targets.now s u }
{
    if have.has(s) {
        targets[s]
    } else {
        BitSet::none()
    }
}

// The sets with the edge e, unless it carries the datum k; the states that have the word.
fn with_edge(
    next: &[u8; 2048],
    k: Option<usize>,
    e: usize,
    have: BitSet,
    targets: &mut [BitSet; 128],
) -> BitSet
    requires { (e < 2048) × (get_or next.now e 0 < 128) × (length targets.old ≡ 128) }
    ensures answer { (s : ℕ) → holds result s ≡ (holds have s || leaves k s e) }
    ensures written { (length targets.new ≡ 128) × ((s u : ℕ) → s < 128 → led result targets.new s u
        ≡ (led have targets.old s u || (leaves k s e && eqb (get_or next.now e 0) u))) }
{
    if is_carrying(k, e) {
        return have;
    }
    let s = e / 16;
    targets[s] = known(have, targets, s).with(next[e] as usize);
    have.with(s)
}

// Puts into `targets`, for each state with an edge that has the word w and does not carry the datum k, the states to
// which such edges lead; the set of these states.
pub fn gather(chains: &Chains, w: usize, k: Option<usize>, targets: &mut [BitSet; 128]) -> BitSet
    requires { (w < 256) × (length targets.old ≡ 128) }
    ensures answer { Gathered (edges_in chains.now.edges) w k result targets.new }
{
    let mut have = BitSet::none();
    let mut at = chains.last(w);
    while let Some(e) = at {
        have = with_edge(chains.edges.next, k, e, have, targets);
        at = chains.before(e);
    }
    have
}

// The states of all those sets of the array whose numbers are in the set.
pub fn union_of(sets: &[BitSet; 128], set: BitSet) -> BitSet
    ensures answer { (u : ℕ) → holds result u ≡ any (holds_in sets.now u) (members_of set) }
{
    let mut left = set;
    let mut out = BitSet::none();
    while let Some(s) = left.pop() {
        out = out.join(sets[s]);
    }
    out
}
