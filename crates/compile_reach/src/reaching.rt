// "Component." Sets of states stand one beside the other: place t * 16 + s says whether s can reach t.
ghost use Rattle.std.specs.Prelude.{◌≡◌, Bool, true, false, not, ◌&&◌, ◌||◌, List, ℕ, ◌+◌, ◌*◌, ◌/◌, ◌%◌, ◌≤◌, ◌<◌};
ghost use Rattle.std.specs.Prelude.{eqb, ltb, is_some, IfSome, length, get_or, take};
ghost use Rattle.std.specs.Option.{unwrap_or};
ghost use Rattle.laws.specs.Lists.{range, any, first, filter};
ghost use Rattle.compile_graph.specs.Arcs.{Arc};
ghost use Rattle.compile_graph.specs.Component.{reachings, reaches, returns, returning, weighs, live};
ghost use Rattle.compile_reach.specs.ReachSets.{row_of, rows_of, Linked, passes_on, live_edge, Listed};

// The states of the component in rising order, and for each state its number in it, 16 for none.
#[derive(Clone, Copy)]
pub struct Members {
    pub count: usize,
    pub state: [usize; 16],
    pub index: [usize; 16],
}

// At s * 16 + t, whether words lead from s to t, both of weight above 0.
pub fn live_edges(count: &[usize; 256], v: [usize; 16], k: usize) -> [bool; 256]
    requires { (length count.now ≡ 256) × (k ≤ 16) }
    ensures answer { (x : ℕ) → x < k * 16 → get_or result x false ≡ live_edge count.now v x }
{
    let mut r = [false; 256];
    for x in 0..k * 16 {
        r[x] = all_above(v[x / 16], v[x % 16], count[x]);
    }
    r
}

// All three are above 0.
fn all_above(a: usize, b: usize, c: usize) -> bool
    ensures answer { result ≡ (ltb 0 a && (ltb 0 b && ltb 0 c)) }
{
    0 < a && 0 < b && 0 < c
}

// Some edge of s leads to a state that can reach t.
fn leads_any(edge: &[bool; 256], m: &[bool; 256], k: usize, t: usize, s: usize) -> bool
    requires { (length edge.now ≡ 256) × (length m.now ≡ 256) × (k ≤ 16) × (t < 16) × (s < 16) }
    ensures answer { result ≡ any (passes_on edge.now m.now t s) (range k) }
{
    for u in 0..k {
        if edge[s * 16 + u] && m[t * 16 + u] {
            return true;
        }
    }
    false
}

// s can reach t, or has an edge to a state that can.
fn reaches_on(edge: &[bool; 256], m: &[bool; 256], k: usize, x: usize) -> bool
    requires { (length edge.now ≡ 256) × (length m.now ≡ 256) × (k ≤ 16) × (x < 256) }
    ensures answer { result ≡ (get_or m.now x false || any
        (passes_on edge.now m.now (x / 16) (x % 16)) (range k)) }
{
    m[x] || leads_any(edge, m, k, x / 16, x % 16)
}

// One round for every state: those that can reach it, and those with an edge to one of them.
fn reach_step(edge: &[bool; 256], m: &[bool; 256], k: usize) -> [bool; 256]
    requires { (length edge.now ≡ 256) × (length m.now ≡ 256) × (k ≤ 16) }
    ensures answer { (x : ℕ) → x < k * 16 → get_or result x false
        ≡ (get_or m.now x false || any (passes_on edge.now m.now (x / 16) (x % 16))
        (range k)) }
{
    let mut r = [false; 256];
    for x in 0..k * 16 {
        r[x] = reaches_on(edge, m, k, x);
    }
    r
}

// Each state by itself.
fn themselves(k: usize) -> [bool; 256]
    requires { k ≤ 16 }
    ensures answer { (x : ℕ) → x < k * 16 → get_or result x false ≡ eqb (x / 16) (x % 16) }
{
    let mut r = [false; 256];
    for x in 0..k * 16 {
        r[x] = x / 16 == x % 16;
    }
    r
}

// For each state those that can reach it, until nothing changes.
pub fn reach_all(edge: &[bool; 256], k: usize) -> [bool; 256]
    requires { (length edge.now ≡ 256) × (k ≤ 16) }
    ensures answer { (g : List Arc) → Linked edge.now k g → rows_of result k ≡ reachings k g }
{
    let mut m = themselves(k);
    for _round in 0..k {
        let r = reach_step(edge, &m, k);
        if r[..k * 16] == m[..k * 16] {
            return m;
        }
        m = r;
    }
    m
}

// A state of this weight is reached and does not reach back.
fn no_return(v: usize, there: bool, back: bool) -> bool
    ensures answer { result ≡ (ltb 0 v && (there && not back)) }
{
    0 < v && there && !back
}

// "every state reachable from it can reach back".
fn returns_all(m: &[bool; 256], v: [usize; 16], k: usize, s: usize) -> bool
    requires { (length m.now ≡ 256) × (k ≤ 16) × (s < k) }
    ensures answer { result ≡ returning (rows_of m.now k) (live (take k v)) s }
{
    for t in 0..k {
        if no_return(v[t], m[t * 16 + s], m[s * 16 + t]) {
            return false;
        }
    }
    true
}

// s has a weight above 0, and every state reachable from it can reach it back.
fn is_returning(m: &[bool; 256], v: [usize; 16], k: usize, s: usize) -> bool
    requires { (length m.now ≡ 256) × (k ≤ 16) × (s < k) }
    ensures answer { result ≡ (weighs (take k v) s && returning (rows_of m.now k) (live (take k v)) s) }
{
    0 < v[s] && returns_all(m, v, k, s)
}

// "the lowest state that every state reachable from it can reach back", where there is one.
pub fn first_returning(m: &[bool; 256], v: [usize; 16], k: usize) -> Option<usize>
    requires { (length m.now ≡ 256) × (k ≤ 16) }
    ensures answer { unwrap_or result 0 ≡ first (returning (rows_of m.now k) (live (take k v))) 0 (live (take k v)) }
    ensures there { IfSome result (λ s. s < k) }
    ensures told { is_some result ≡ any (returning (rows_of m.now k) (live (take k v))) (live (take k v)) }
{
    for s in 0..k {
        if is_returning(m, v, k, s) {
            return Some(s);
        }
    }
    None
}

// A state of this weight is reached.
fn is_member(v: usize, there: bool) -> bool
    ensures answer { result ≡ (ltb 0 v && there) }
{
    0 < v && there
}

// "all states reachable from it", which is s, numbered in rising order.
pub fn list_members(m: &[bool; 256], v: [usize; 16], k: usize, s: usize) -> Members
    requires { (length m.now ≡ 256) × (k ≤ 16) × (s < k) }
    ensures answer { Listed k (filter (reaches (rows_of m.now k) s) (live (take k v))) result }
{
    let mut state = [0usize; 16];
    let mut index = [16usize; 16];
    let mut count = 0;
    for t in 0..k {
        if is_member(v[t], m[t * 16 + s]) {
            state[count] = t;
            index[t] = count;
            count += 1;
        }
    }
    Members {
        count,
        state,
        index,
    }
}
