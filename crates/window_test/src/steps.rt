// The steps of the window test and of the search: sets of pairs one word on, one word of memory more, and the lookahead
// that a set of pairs needs.
ghost use Rattle.std.specs.Prelude.{◌≡◌, true, ◌≤◌, IfSome};
ghost use Rattle.table.specs.Edges.{rows_of};
ghost use Rattle.table.specs.Lent.{edges_in};
ghost use Rattle.window.specs.Works.{into, reversed};
ghost use Rattle.window.specs.Search.{hits};
ghost use Rattle.window.specs.Steps.{with_word, steps_of, Emptied};
ghost use Rattle.window_pairs.specs.PairSets.{pairs_in, Long};

use bitsets::BitSet;
use table::linked::Chains;
use window_pairs::sets::{add_start, is_empty, replace};
use window_pairs::{clash_pairs, step_pairs};

// Puts into `out` the pairs that one common word leads to from the pairs.
pub fn forward(chains: &Chains, pairs: &[BitSet; 128], out: &mut [BitSet; 128])
    requires { Long out.old }
    ensures written { Long out.new
        × (pairs_in chains.now.edges.states out.new
        ≡ into (reversed (rows_of (edges_in chains.now.edges))) (pairs_in chains.now.edges.states pairs.now)) }
{
    step_pairs(chains, pairs, out);
}

// Puts into `out` the pairs that a clash leads to from the pairs.
pub fn clashes(chains: &Chains, pairs: &[BitSet; 128], out: &mut [BitSet; 128])
    requires { Long out.old }
    ensures written { Long out.new
        × (pairs_in chains.now.edges.states out.new
        ≡ hits (rows_of (edges_in chains.now.edges)) (pairs_in chains.now.edges.states pairs.now)) }
{
    clash_pairs(chains, pairs, out);
}

// Steps the pairs whose next edges must agree by one word of memory more; whether they stay the same.
pub fn extend_memory(chains: &Chains, past: &mut [BitSet; 128], spare: &mut [BitSet; 128]) -> bool
    requires { Long past.old × Long spare.old }
    ensures answer { result ≡ true
        → pairs_in chains.now.edges.states past.new ≡ pairs_in chains.now.edges.states past.old }
    ensures written { pairs_in chains.now.edges.states past.new
        ≡ with_word (rows_of (edges_in chains.now.edges)) (pairs_in chains.now.edges.states past.old) }
    ensures kept { Long past.new × Long spare.new }
{
    forward(chains, past, spare);
    add_start(spare);
    replace(chains.edges.states, spare, past)
}

// The number of words after which no pair of the set is left, if it is at most `most`. A set that a word leads to
// itself stays.
pub fn lookahead_needed(
    chains: &Chains,
    most: usize,
    set: &mut [BitSet; 128],
    spare: &mut [BitSet; 128],
) -> Option<usize>
    requires { (most ≤ 15) × Long set.old × Long spare.old }
    ensures answer { Emptied (rows_of (edges_in chains.now.edges)) (pairs_in chains.now.edges.states set.old) most
        (steps_of most result) }
    ensures within { IfSome result (λ k. k ≤ most) }
    ensures kept { Long set.new × Long spare.new }
{
    let states = chains.edges.states;
    for k in 0..most {
        if is_empty(states, set) {
            return Some(k);
        }
        forward(chains, set, spare);
        if replace(states, spare, set) {
            return None;
        }
    }
    if is_empty(states, set) {
        Some(most)
    } else {
        None
    }
}
