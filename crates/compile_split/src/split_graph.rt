// "Splitting, while some state has fewer than n edges out."
ghost use Rattle.std.specs.Prelude.{◌+◌, ◌≤◌, ◌<◌, T, length};
ghost use Rattle.laws.specs.Lists.{any, range};
ghost use Rattle.compile_graph.specs.Splitting.{splittable};
ghost use Rattle.compile_graph.specs.Value.{weights_in, arcs_in, Fits};
ghost use Rattle.compile_split.specs.SplitParts.{SplitInto, Splits, SplitAllInto};

use crate::part_state::part_state;
use compile_choice::choose::{choose, greatest_weight};
use compile_graph::Graph;
use compile_parts::{enter_count, is_unfinished};

// One split, or none: the graph would have over 2,048 edges.
pub fn split(g: Graph, n: usize) -> Option<Graph>
    requires { Fits g × (g.states < 128) × (0 < n) × (n ≤ 16)
        × T (any (splittable (weights_in g) (arcs_in g)) (range (length (weights_in g)))) }
    ensures answer { SplitInto n g result }
{
    let m = greatest_weight(g);
    let s = choose(g, m);
    if 2048 < g.edges + enter_count(g, s) {
        return None;
    }
    Some(part_state(g, s, m, n))
}

// All splits, or none: the graph would have over 2,048 edges after one of them.
pub fn split_all(g: Graph, n: usize) -> Option<Graph>
    requires { Splits n g }
    ensures answer { SplitAllInto n g result }
{
    let mut h = g;
    while is_unfinished(h, n) {
        h = split(h, n)?;
    }
    Some(h)
}
