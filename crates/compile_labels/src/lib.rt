// "State 0 stays. In each later state, in order, an edge first takes the lowest datum still free there that the lowest
// earlier state with its word gave that word; edges with no such datum then take the free data, rising."
// A column is the words, or the next states, of a table: the entry of state s and datum d stands at s * 16 + d.
#![tactic(auto)]

ghost use Rattle.std.specs.Prelude.{◌≡◌, ◌&&◌, [], ℕ, ◌≤◌, ◌<◌, T, length, get_or, take};
ghost use Rattle.laws.specs.Lists.{range, first, extend, elem, index_of};
ghost use Rattle.table.specs.Rows.{Rows};
ghost use Rattle.compile_table.specs.Finishing.{rows_of_table};
ghost use Rattle.compile_labels.specs.Labels.{carries, gave, free, asked, data_of, relabelled};
ghost use Rattle.compile_labels.specs.Parts.{row_at, gave_at, Worded, Homes, noted, served, Reordered};

use compile_table::finish_table::TableRows;
use table::chains::wide;

// The 16 entries of state s.
fn row_of(column: &[u8; 2048], s: usize) -> [u8; 16]
    requires { (length column.now ≡ 2048) × (s < 128) }
    ensures answer { result ≡ row_at column.now s }
{
    let mut row = [0u8; 16];
    row.copy_from_slice(&column[s * 16..s * 16 + 16]);
    row
}

// The place of d among the first k of the list, or k.
fn place_of(list: [u8; 16], k: usize, d: usize) -> usize
    requires { k ≤ 16 }
    ensures answer { (result ≡ index_of d (take k list)) × (result ≤ k) }
{
    for i in 0..k {
        if list[i] as usize == d {
            return i;
        }
    }
    k
}

// None of the first k edges has the datum d.
fn is_free(ds: [u8; 16], k: usize, d: usize) -> bool
    requires { k ≤ 16 }
    ensures answer { result ≡ free (take k ds) d }
{
    place_of(ds, k, d) == k
}

// The state with these words gave d to the word w, and none of the first k edges has it.
fn is_given(words: [u8; 16], w: u8, ds: [u8; 16], k: usize, d: usize) -> bool
    requires { (k ≤ 16) × (d < 16) }
    ensures answer { result ≡ (carries words w d && free (take k ds) d) }
{
    words[d] == w && is_free(ds, k, d)
}

// The lowest datum that the state with these words gave to w and that none of the first k edges has, or n: here and
// below n is no datum, as in the definition `asked`.
fn lowest_given(words: [u8; 16], n: usize, w: u8, ds: [u8; 16], k: usize) -> usize
    requires { (n ≤ 16) × (k ≤ 16) }
    ensures answer { (result ≡ first (free (take k ds)) n (gave n words w)) × (result ≤ n) }
{
    for d in 0..n {
        if is_given(words, w, ds, k, d) {
            return d;
        }
    }
    n
}

// The same for the words of state h; n if h is no state. As an option, h would still need the test that it is below
// 128.
fn asked_datum(column: &[u8; 2048], h: u8, n: usize, w: u8, ds: [u8; 16], k: usize) -> usize
    requires { (length column.now ≡ 2048) × (n ≤ 16) × (k ≤ 16) }
    ensures answer { (result ≡ first (free (take k ds)) n (gave_at n column.now h w)) × (result ≤ n) }
{
    if h >= 128 {
        return n;
    }
    let words = row_of(column, h as usize);
    lowest_given(words, n, w, ds, k)
}

// What the n edges with these words first take, n for no datum; `home` has for each word the lowest earlier state.
fn ask(column: &[u8; 2048], home: [u8; 256], words: [u8; 16], n: usize) -> [u8; 16]
    requires { (length column.now ≡ 2048) × (n ≤ 16) }
    ensures answer { (t : Rows) → Worded n t column.now → Homes t home
        → take n result ≡ extend (asked n t) [] (take n words) }
{
    let mut ds = [0u8; 16];
    for k in 0..n {
        let w = words[k];
        ds[k] = asked_datum(column, home[w as usize], n, w, ds, k) as u8;
    }
    ds
}

// The lowest datum below n that no edge has, or n.
fn lowest_free(ds: [u8; 16], n: usize) -> usize
    requires { n ≤ 16 }
    ensures answer { (result ≡ first (free (take n ds)) n (range n)) × (result ≤ n) }
{
    for d in 0..n {
        if is_free(ds, n, d) {
            return d;
        }
    }
    n
}

// The data of n edges that asked for these: an edge with none takes the lowest that is free.
fn serve(asked: [u8; 16], n: usize) -> [u8; 16]
    requires { n ≤ 16 }
    ensures answer { take n result ≡ served n [] (take n asked) }
{
    let mut ds = asked;
    for k in 0..n {
        if wide(ds[k]) >= n {
            ds[k] = lowest_free(ds, n) as u8;
        }
    }
    ds
}

// The data of the n edges of state i.
fn data_of(column: &[u8; 2048], home: [u8; 256], n: usize, i: usize) -> [u8; 16]
    requires { (length column.now ≡ 2048) × (n ≤ 16) × (i < 128) }
    ensures answer { (t : Rows) → Worded n t column.now → Homes t home
        → take n result ≡ data_of n t (take n (row_at column.now i)) }
{
    let words = row_of(column, i);
    let asked = ask(column, home, words, n);
    serve(asked, n)
}

// The column with the entries of state i in the order of their data.
fn reorder(column: [u8; 2048], n: usize, i: usize, ds: [u8; 16]) -> [u8; 2048]
    requires { (n ≤ 16) × (i < 128) × ((d : ℕ) → d < n → T (elem d (take n ds))) }
    ensures answer { Reordered n i (take n ds) column result }
{
    let mut r = column;
    for d in 0..n {
        let k = place_of(ds, n, d);
        r[i * 16 + d] = column[i * 16 + k];
    }
    r
}

// For each word the lowest state with it, state i with these n words added.
fn note(words: [u8; 16], n: usize, i: usize, home: [u8; 256]) -> [u8; 256]
    requires { (n ≤ 16) × (i < 128) }
    ensures answer { (w : ℕ) → w < 256 → get_or result w 0 ≡ noted (take n words) i home w }
{
    let mut r = home;
    for d in 0..n {
        let w = words[d] as usize;
        if r[w] == 128 {
            r[w] = i as u8;
        }
    }
    r
}

// The table with its data given anew.
pub fn relabel(rows: TableRows, n: usize) -> TableRows
    requires { (n ≤ 16) × (rows.states ≤ 128) }
    ensures answer { (rows_of_table n result ≡ relabelled n (rows_of_table n rows)) × (result.states ≡ rows.states) }
{
    let count = rows.states;
    let mut word = rows.word;
    let mut next = rows.next;
    let first = row_of(&word, 0);
    let mut home = note(first, n, 0, [128u8; 256]);
    for i in 1..count {
        let ds = data_of(&word, home, n, i);
        let words = reorder(word, n, i, ds);
        word = words;
        let nexts = reorder(next, n, i, ds);
        next = nexts;
        let row = row_of(&word, i);
        let more = note(row, n, i, home);
        home = more;
    }
    TableRows {
        states: count,
        word,
        next,
    }
}
