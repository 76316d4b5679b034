// The component as a graph in work: "Renumber in rising order."
ghost use Rattle.std.specs.Prelude.{◌≡◌, [], map, ℕ, ◌+◌, ◌≤◌, ◌<◌, ltb, length, get_or, take};
ghost use Rattle.laws.specs.Lists.{range, sum, concat};
ghost use Rattle.laws.specs.Sums.{tot};
ghost use Rattle.compile_graph.specs.Component.{weight_of};
ghost use Rattle.compile_graph.specs.Value.{arcs_in, weights_in};
ghost use Rattle.compile_weights.specs.PowerTable.{tabled, Powers};
ghost use Rattle.compile_component.specs.ComponentParts.{place_of, row_arcs, row_of_state, Added, FoundIn};

use compile_graph::Graph;
use compile_reach::reaching::{Members, first_returning, list_members, live_edges, reach_all};
use compile_weights::state_weights::word_counts;

// The component: the sum of its weights, its start in the constraint, and its graph unless it has over 2,048 edges.
#[derive(Clone, Copy)]
pub struct ComponentAnswer {
    pub total: usize,
    pub start: usize,
    pub graph: Option<Graph>,
}

// The number of state t in the component, 16 for none.
fn place_of(index: [usize; 16], t: u8) -> usize
    ensures answer { result ≡ place_of index t }
{
    if t < 16 { index[t as usize] } else { 16 }
}

// The graph with the words from s that lead into the component, or none if it would have over 2,048 edges.
fn add_words(
    power: &[u8; 4096],
    words: usize,
    s: usize,
    index: [usize; 16],
    g: Graph,
) -> Option<Graph>
    requires { (length power.now ≡ 4096) × (words ≤ 256) × (s < 16) × (get_or index s 0 < 16) × (g.edges ≤ 2048) }
    ensures answer { Added g (row_arcs power.now index s words) result }
{
    let mut h = g;
    let from = index[s] as u8;
    let mut m = g.edges;
    for w in 0..words {
        let t = place_of(index, power[s * 256 + w]);
        if t < 16 {
            if 2048 <= m {
                return None;
            }
            h.source[m] = from;
            h.word[m] = w as u8;
            h.target[m] = t as u8;
            m += 1;
        }
    }
    h.edges = m;
    Some(h)
}

// The same, where s is in the component.
fn add_state(
    power: &[u8; 4096],
    words: usize,
    s: usize,
    index: [usize; 16],
    g: Graph,
) -> Option<Graph>
    requires { (length power.now ≡ 4096) × (words ≤ 256) × (s < 16) × (g.edges ≤ 2048) }
    ensures answer { Added g (row_of_state power.now words index s) result }
{
    if index[s] < 16 {
        add_words(power, words, s, index, g)
    } else {
        Some(g)
    }
}

// The graph with the words among the states of the component, or none if it would have over 2,048 edges.
fn add_states(
    power: &[u8; 4096],
    words: usize,
    k: usize,
    index: [usize; 16],
    g: Graph,
) -> Option<Graph>
    requires { (length power.now ≡ 4096) × (words ≤ 256) × (k ≤ 16) × (g.edges ≤ 2048) }
    ensures answer { Added g (concat (map (row_of_state power.now words index) (range k))) result }
{
    let mut h = g;
    for s in 0..k {
        h = add_state(power, words, s, index, h)?;
    }
    Some(h)
}

// A graph without edges, with the weights of the component's states.
fn with_weights(list: Members, v: [usize; 16]) -> Graph
    requires { (list.count ≤ 16) × ((i : ℕ) → i < list.count → (get_or list.state i 0 < 16)
        × (get_or v (get_or list.state i 0) 0 ≤ 128)) }
    ensures answer { (weights_in result ≡ map (weight_of v) (take list.count list.state))
        × (result.states ≡ list.count) × (result.edges ≡ 0) }
{
    let mut weight = [0u8; 128];
    for i in 0..list.count {
        weight[i] = v[list.state[i]] as u8;
    }
    Graph {
        states: list.count,
        edges: 0,
        weight,
        source: [0u8; 2048],
        word: [0u8; 2048],
        target: [0u8; 2048],
    }
}

// The sum of the weights of the component's states.
fn total_weight(list: Members, v: [usize; 16]) -> usize
    requires { (list.count ≤ 16) × ((i : ℕ) → i < list.count → (get_or list.state i 0 < 16)
        × (get_or v (get_or list.state i 0) 0 ≤ 128)) }
    ensures answer { result ≡ sum (map (weight_of v) (take list.count list.state)) }
{
    let mut total = 0;
    for i in 0..list.count {
        total += v[list.state[i]];
    }
    total
}

// The first state of the component, or 0.
fn first_state(list: Members) -> usize
    ensures answer { result ≡ get_or (take list.count list.state) 0 0 }
{
    if list.count == 0 { 0 } else { list.state[0] }
}

// The component of the words of a power table, by the weights of its states.
pub fn find_component(power: &[u8; 4096], words: usize, k: usize, v: [usize; 16]) -> ComponentAnswer
    requires { Powers power.now words k × (0 < k) × ((s : ℕ) → s < k → get_or v s 0 ≤ 128) }
    ensures answer { FoundIn (take k v) (tabled power.now words k) result }
{
    let count = word_counts(power, words, k);
    let edge = live_edges(&count, v, k);
    let m = reach_all(&edge, k);
    // Where there is none, no state has a weight, so that the component of any state is empty.
    let s = first_returning(&m, v, k).unwrap_or(0);
    let list = list_members(&m, v, k, s);
    let g = with_weights(list, v);
    ComponentAnswer {
        total: total_weight(list, v),
        start: first_state(list),
        graph: add_states(power, words, k, list.index, g),
    }
}
