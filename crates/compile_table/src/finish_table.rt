// "Table. Each state keeps its first n edges in order of word, then target; they carry data 0 to n − 1. States not
// reachable from the start are removed, the others renumbered in order." The data are then given anew in
// `compile_labels`.
ghost use Rattle.std.specs.Prelude.{◌≡◌, Bool, true, false, not, ◌&&◌, ◌||◌, ℕ, ◌+◌, ◌*◌, ◌/◌, ◌%◌, ◌≤◌, ◌<◌, length};
ghost use Rattle.std.specs.Prelude.{get_or};
ghost use Rattle.laws.specs.Lists.{any};
ghost use Rattle.laws.specs.Sets.{member};
ghost use Rattle.compile_graph.specs.Component.{reachings, reaches};
ghost use Rattle.compile_table.specs.TableOf.{first_edges};
ghost use Rattle.compile_graph.specs.Value.{work_in};
ghost use Rattle.compile_order.specs.EdgeKeys.{first_keys};
ghost use Rattle.compile_table.specs.Finishing.{Finished, Open, entered_by, rank, TableIn, RowPut};

use compile_graph::Graph;
use compile_order::keys::first_edges;

// The rows of a table: the edge of state s that carries d has its word and its next state at s * 16 + d, in two arrays
// as the struct `Table` takes them.
#[derive(Clone, Copy)]
pub struct TableRows {
    pub states: usize,
    pub word: [u8; 2048],
    pub next: [u8; 2048],
}

// The lowest of k states that is reached and whose edges have not been followed.
fn next_open(set: [bool; 128], done: [bool; 128], k: usize) -> Option<usize>
    requires { k ≤ 128 }
    ensures answer { Open set done k result }
{
    for s in 0..k {
        if set[s] && !done[s] {
            return Some(s);
        }
    }
    None
}

// The set with the states to which the edges lead.
fn mark_targets(list: &[usize], set: [bool; 128]) -> [bool; 128]
    ensures answer { (x : ℕ) → member result x ≡ (member set x || any (entered_by x) list.now) }
{
    let mut marked = set;
    for key in list {
        marked[*key % 128] = true;
    }
    marked
}

// The states reachable from the start by the first n edges of each state.
fn reach_rows(g: Graph, n: usize) -> [bool; 128]
    requires { Finished n g }
    ensures answer { (t : ℕ) → t < g.states → member result t
        ≡ reaches (reachings g.states (first_edges n (work_in g))) 0 t }
{
    let mut set = [false; 128];
    set[0] = true;
    let mut done = [false; 128];
    while let Some(s) = next_open(set, done, g.states) {
        let list = first_edges(g, s, 256, 65535, n);
        set = mark_targets(list.as_slice(), set);
        done[s] = true;
    }
    set
}

// For each state how many states of the set are below it.
fn ranks(set: [bool; 128], k: usize) -> [usize; 128]
    requires { k ≤ 128 }
    ensures answer { (t : ℕ) → t < k → get_or result t 0 ≡ rank set t }
{
    let mut ranks = [0usize; 128];
    let mut count = 0;
    for t in 0..k {
        ranks[t] = count;
        if set[t] {
            count += 1;
        }
    }
    ranks
}

// The rows with that of state i, its edges in order.
fn put_row(rows: TableRows, list: &[usize], index: [usize; 128], i: usize) -> TableRows
    requires { (length list.now ≤ 16) × (i < 128) × ((d : ℕ) → d < length list.now
        → (get_or list.now d 0 < 32768) × (get_or index (get_or list.now d 0 % 128) 0 < 128)) }
    ensures answer { RowPut rows list.now index i (length list.now) result }
{
    let mut r = rows;
    for (d, key) in list.iter().enumerate() {
        r.word[i * 16 + d] = (*key / 128) as u8;
        r.next[i * 16 + d] = index[*key % 128] as u8;
    }
    r
}

// The rows with that of state t of the graph as row i.
fn add_row(
    g: Graph,
    n: usize,
    t: usize,
    index: [usize; 128],
    rows: TableRows,
    i: usize,
) -> TableRows
    requires { Finished n g × (t < g.states) × (i < 128) × ((s : ℕ) → s < g.states → get_or index s 0 < 128) }
    ensures answer { RowPut rows (first_keys g t 256 65535 n) index i n result }
{
    let list = first_edges(g, t, 256, 65535, n);
    put_row(rows, list.as_slice(), index, i)
}

// The table of a graph that is split to the end.
pub fn finish_table(g: Graph, n: usize) -> TableRows
    requires { Finished n g }
    ensures answer { TableIn n g result }
{
    let set = reach_rows(g, n);
    let index = ranks(set, g.states);
    let mut rows = TableRows {
        states: 0,
        word: [0u8; 2048],
        next: [0u8; 2048],
    };
    let mut count = 0;
    for t in 0..g.states {
        if set[t] {
            rows = add_row(g, n, t, index, rows, count);
            count += 1;
        }
    }
    rows.states = count;
    rows
}
