// "s keeps the run's edges and weight w; a new last state takes all other edges of s and weight M − w. Then every
// edge into s becomes two, to s and to the new state."
ghost use Rattle.std.specs.Prelude.{◌≡◌, ◌+◌, ◌≤◌, ◌<◌, T, get_or};
ghost use Rattle.laws.specs.Lists.{any};
ghost use Rattle.compile_graph.specs.Arcs.{out};
ghost use Rattle.compile_graph.specs.Splitting.{greatest, lighter};
ghost use Rattle.compile_graph.specs.Value.{weights_in, arcs_in, Fits};
ghost use Rattle.compile_parts.specs.Parts.{entering};
ghost use Rattle.compile_split.specs.SplitParts.{Weighed, PartedInto};

use compile_choice::choose::candidate_keys;
use compile_choice::find_run::first_run;
use compile_graph::Graph;
use compile_order::keys::key_weights;
use compile_parts::{double_edges, move_edges};

// Weight w for s, and a new last state with what is left of its weight.
fn weigh(g: Graph, s: usize, w: u8) -> Graph
    requires { (s < g.states) × (g.states < 128) × (w ≤ get_or g.weight s 0) }
    ensures answer { Weighed g s w result }
{
    let mut h = g;
    let n = h.states;
    let rest = h.weight[s] - w;
    h.weight[s] = w;
    h.weight[n] = rest;
    h.states = n + 1;
    h
}

// State s, of the greatest weight m, split by the rule; there is room for its edges.
pub fn part_state(g: Graph, s: usize, m: u8, n: usize) -> Graph
    requires { Fits g × (s < g.states) × (g.states < 128) × (m ≡ get_or (weights_in g) s 0)
        × (m ≡ greatest (weights_in g))
        × T (any (lighter (weights_in g) m) (out (arcs_in g) s)) × (0 < n) × (n ≤ 16)
        × (g.edges + entering (arcs_in g) s ≤ 2048) }
    ensures answer { PartedInto n g s result }
{
    let list = candidate_keys(g, s, m, n);
    let weights = key_weights(g, list.as_slice());
    let run = first_run(weights.as_slice(), n);
    let share = (run.total / n) as u8;
    let moved = move_edges(g, s, &list.as_slice()[run.from..run.from + run.count]);
    let grown = double_edges(moved, s);
    weigh(grown, s, share)
}
