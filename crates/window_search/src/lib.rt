// The search for the least window: for each memory, sets of pairs of states are stepped until they are empty.
#![tactic(auto)]

ghost use Rattle.std.specs.Prelude.{◌≡◌, ◌+◌, ◌≤◌};
ghost use Rattle.table.specs.Value.{Ready, rows_in};
ghost use Rattle.table.specs.Edges.{rows_of};
ghost use Rattle.table.specs.Lent.{edges_in};
ghost use Rattle.window.specs.Search.{window, pasts};
ghost use Rattle.window.specs.Steps.{Leading, Room};
ghost use Rattle.window_pairs.specs.PairSets.{pairs_in, Long};
ghost use Rattle.window_search.specs.Finding.{found_size};

use crate::found::Window;
use bitsets::BitSet;
use std::cmp::min;
use table::Table;
use table::lent::Edges;
use table::linked::Chains;
use window_pairs::sets::fill;
use window_test::steps::{clashes, extend_memory, lookahead_needed};

pub mod found;

// Memory and lookahead of the best window so far together; where there is none, as many as no window has.
fn sum_of(best: Option<Window>) -> usize
    ensures answer { result ≡ (found_size best).memory + (found_size best).lookahead }
{
    match best {
        Some(window) => window.memory + window.lookahead,
        None => 32,
    }
}

// The most lookahead with which memory m can be better than the best so far.
fn lookahead_limit(best: Option<Window>, m: usize) -> usize
    requires { (m ≤ 15) × (m ≤ (found_size best).memory + (found_size best).lookahead) }
    ensures answer { Room (found_size best) m result }
{
    min(sum_of(best) - m, 15)
}

// The best window with memory up to m.
fn try_memory(
    chains: &Chains,
    past: &[BitSet; 128],
    best: Option<Window>,
    m: usize,
    set: &mut [BitSet; 128],
    spare: &mut [BitSet; 128],
) -> Option<Window>
    requires { (m ≤ 15) × (m ≤ (found_size best).memory + (found_size best).lookahead)
        × (pairs_in chains.now.edges.states past.now ≡ pasts (rows_of (edges_in chains.now.edges)) m)
        × Leading (rows_of (edges_in chains.now.edges)) m (found_size best) × Long set.old × Long spare.old }
    ensures answer { Leading (rows_of (edges_in chains.now.edges)) (m + 1) (found_size result) }
    ensures kept { Long set.new × Long spare.new }
{
    clashes(chains, past, set);
    let most = lookahead_limit(best, m);
    if let Some(lookahead) = lookahead_needed(chains, most, set, spare) {
        return Some(Window {
            memory: m,
            lookahead,
        });
    }
    best
}

// The least window. The search ends where no larger memory can be better: the best has less memory and lookahead
// together, or the pairs that must agree stay the same.
fn least(chains: &Chains) -> Option<Window>
    ensures answer { window (rows_of (edges_in chains.now.edges)) ≡ found_size result }
{
    let mut past = [BitSet::none(); 128];
    let mut set = [BitSet::none(); 128];
    let mut spare = [BitSet::none(); 128];
    fill(chains.edges.states, &mut past);
    let mut best = None;
    for m in 0..15 {
        best = try_memory(chains, &past, best, m, &mut set, &mut spare);
        if sum_of(best) <= m {
            return best;
        }
        if extend_memory(chains, &mut past, &mut spare) {
            return best;
        }
    }
    try_memory(chains, &past, best, 15, &mut set, &mut spare)
}

// The window with least memory and lookahead together, then with least lookahead, up to 15 and 15.
pub fn least_window(t: Table) -> Option<Window>
    requires { Ready t }
    ensures answer { found_size result ≡ window (rows_in t) }
{
    let chains = Chains::of(Edges::of(&t));
    least(&chains)
}
