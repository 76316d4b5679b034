// The window test, by sets of pairs of states in two arrays of 2 KiB; no path is ever listed.
#![tactic(auto)]

ghost use Rattle.std.specs.Prelude.{◌≡◌, ◌≤◌};
ghost use Rattle.table.specs.Value.{Ready, rows_in};
ghost use Rattle.table.specs.Edges.{rows_of};
ghost use Rattle.table.specs.Lent.{edges_in};
ghost use Rattle.window.specs.Works.{works, all_pairs};
ghost use Rattle.window.specs.Search.{pasts};
ghost use Rattle.window.specs.Steps.{size};
ghost use Rattle.window_pairs.specs.PairSets.{pairs_in, Long};

use crate::steps::{clashes, extend_memory, lookahead_needed};
use bitsets::BitSet;
use table::Table;
use table::lent::Edges;
use table::linked::Chains;
use window_pairs::sets::fill;

pub mod steps;

// Steps all pairs to those whose next edges must agree under memory m.
fn pairs_after(chains: &Chains, m: usize, past: &mut [BitSet; 128], spare: &mut [BitSet; 128])
    requires { Long past.old × Long spare.old
        × (pairs_in chains.now.edges.states past.old ≡ all_pairs (rows_of (edges_in chains.now.edges))) }
    ensures written { pairs_in chains.now.edges.states past.new ≡ pasts (rows_of (edges_in chains.now.edges)) m }
    ensures kept { Long past.new × Long spare.new }
{
    for _turn in 0..m {
        if extend_memory(chains, past, spare) {
            return;
        }
    }
}

// The window with this memory and lookahead does what a window must, by chains.
fn works_by(chains: &Chains, memory: usize, lookahead: usize) -> bool
    requires { lookahead ≤ 15 }
    ensures answer { result ≡ works (rows_of (edges_in chains.now.edges)) (size memory lookahead) }
{
    let mut past = [BitSet::none(); 128];
    let mut hits = [BitSet::none(); 128];
    fill(chains.edges.states, &mut past);
    pairs_after(chains, memory, &mut past, &mut hits);
    clashes(chains, &past, &mut hits);
    lookahead_needed(chains, lookahead, &mut hits, &mut past).is_some()
}

// The window with this memory and lookahead does what a window must.
pub fn works(t: Table, memory: usize, lookahead: usize) -> bool
    requires { Ready t × (lookahead ≤ 15) }
    ensures answer { result ≡ works (rows_in t) (size memory lookahead) }
{
    let chains = Chains::of(Edges::of(&t));
    works_by(&chains, memory, lookahead)
}
