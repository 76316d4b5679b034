// "the lowest state s among those of greatest weight M that have an edge to a lighter state", and its candidates.
ghost use Rattle.std.specs.Prelude.{◌≡◌, map, ℕ, ◌+◌, ◌≤◌, ◌<◌, T, length, take};
ghost use Rattle.laws.specs.Lists.{any, range};
ghost use Rattle.compile_graph.specs.Arcs.{out};
ghost use Rattle.compile_graph.specs.Splitting.{greatest, splittable, chosen, lighter, candidates, sort};
ghost use Rattle.compile_graph.specs.Value.{weights_in, arcs_in, Fits};
ghost use Rattle.compile_order.specs.EdgeKeys.{keys_in, arc_of};

use compile_graph::Graph;
use compile_order::keys::{Keys, first_edges, in_front};

// The greatest weight.
pub fn greatest_weight(g: Graph) -> u8
    requires { Fits g }
    ensures answer { result ≡ greatest (weights_in g) }
{
    let mut greatest = 0;
    for i in 0..g.states {
        greatest = greatest.max(g.weight[i]);
    }
    greatest
}

// The state to split, where there is one: the lowest source of an edge from a state of weight m to a lighter one.
pub fn choose(g: Graph, m: u8) -> usize
    requires { Fits g × (m ≡ greatest (weights_in g))
        × T (any (splittable (weights_in g) (arcs_in g)) (range (length (weights_in g)))) }
    ensures answer { (result ≡ chosen (weights_in g) (arcs_in g)) × (result < g.states) }
{
    let mut lowest = None;
    for i in 0..g.edges {
        let source = g.source[i] as usize;
        let target = g.target[i] as usize;
        if g.weight[source] == m && g.weight[target] < m {
            lowest = Some(lowest.unwrap_or(source).min(source));
        }
    }
    lowest.unwrap()
}

// "its first edge to a lighter state, then its first n − 1 other edges".
pub fn candidate_keys(g: Graph, s: usize, m: u8, n: usize) -> Keys
    requires { Fits g × (0 < n) × (n ≤ 16) × T (any (lighter (weights_in g) m) (out (arcs_in g) s)) }
    ensures answer { (map (arc_of s) (keys_in result) ≡ candidates n (weights_in g) m (sort (out (arcs_in g) s)))
        × (result.count ≤ n) }
{
    let light = first_edges(g, s, m as usize, 65535, 1);
    let first = light.key[0];
    let others = first_edges(g, s, 256, first, n - 1);
    in_front(others, first)
}
