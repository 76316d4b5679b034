// The edges of a split: "a new last state takes all other edges of s", and "every edge into s becomes two, to s and to
// the new state"; and whether some state has too few.
#![tactic(auto)]

ghost use Rattle.std.specs.Prelude.{◌≡◌, map, ℕ, ◌+◌, ◌*◌, ◌≤◌, ◌<◌, ltb, length, get_or};
ghost use Rattle.laws.specs.Lists.{any};
ghost use Rattle.compile_graph.specs.Arcs.{out};
ghost use Rattle.compile_graph.specs.Splitting.{unfinished};
ghost use Rattle.compile_graph.specs.Value.{arcs_in, work_in, Fits};
ghost use Rattle.compile_order.specs.EdgeKeys.{arc_of};
ghost use Rattle.compile_parts.specs.Parts.{Moved, entering, Doubled};

use compile_graph::Graph;

// All edges out of s leave the new state, but those of the kept keys.
pub fn move_edges(g: Graph, s: usize, kept: &[usize]) -> Graph
    requires { Fits g × (g.states < 128) }
    ensures answer { Moved g s (map (arc_of s) kept.now) result }
{
    let mut h = g;
    for i in 0..g.edges {
        let key = g.word[i] as usize * 128 + g.target[i] as usize;
        if g.source[i] as usize == s && !kept.contains(&key) {
            h.source[i] = g.states as u8;
        }
    }
    h
}

// How many edges lead into s.
pub fn enter_count(g: Graph, s: usize) -> usize
    requires { Fits g }
    ensures answer { (result ≡ entering (arcs_in g) s) × (result ≤ g.edges) }
{
    let mut count = 0;
    for i in 0..g.edges {
        if g.target[i] as usize == s {
            count += 1;
        }
    }
    count
}

// After all edges, each edge into s once more, to the new state; there is room for them.
pub fn double_edges(g: Graph, s: usize) -> Graph
    requires { (g.edges + entering (arcs_in g) s ≤ 2048) × (g.states < 128) }
    ensures answer { Doubled g s result }
{
    let mut h = g;
    let mut edges = g.edges;
    for i in 0..g.edges {
        if g.target[i] as usize == s {
            h.source[edges] = g.source[i];
            h.word[edges] = g.word[i];
            h.target[edges] = g.states as u8;
            edges += 1;
        }
    }
    h.edges = edges;
    h
}

// How many edges each state has.
fn out_counts(g: Graph) -> [usize; 128]
    requires { Fits g }
    ensures answer { (s : ℕ) → s < g.states → get_or result s 0 ≡ length (out (arcs_in g) s) }
{
    let mut counts = [0usize; 128];
    for i in 0..g.edges {
        counts[g.source[i] as usize] += 1;
    }
    counts
}

// "some state has fewer than n edges out".
pub fn is_unfinished(g: Graph, n: usize) -> bool
    requires { Fits g }
    ensures answer { result ≡ unfinished n (work_in g) }
{
    let counts = out_counts(g);
    for s in 0..g.states {
        if counts[s] < n {
            return true;
        }
    }
    false
}
