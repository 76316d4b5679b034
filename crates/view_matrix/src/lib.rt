// The matrix of a code of many states: states by words, next state and datum, as SVG.
#![tactic(auto)]

ghost use Rattle.std.specs.Prelude.{◌≡◌, ◌*◌, ◌^◌, ◌≤◌, ◌<◌};
ghost use Rattle.table.specs.Value.{word_at, next_at, code_in, Ready};
ghost use Rattle.text.specs.Texts.{Added};
ghost use Rattle.view_matrix.specs.Matrix.{column_x, row_y, column_text, cell, heading, axes, matrix};

pub mod edges;

use crate::edges::{next_at, word_at};
use sentences::write_sentence;
use table::Table;
use text::Writer;

// How many words of q bits there are.
fn words_of(q: usize) -> usize
    requires { q ≤ 8 }
    ensures answer { (result ≡ 2 ^ q) × (result ≤ 256) }
{
    bits::power(q)
}

// Where the column of a word begins.
fn column_x(w: usize) -> usize
    requires { w ≤ 256 }
    ensures answer { (result ≡ column_x w) × (result ≤ 43056) }
{
    48 + w * 168
}

// Where the row of a state begins, with n data a state.
fn row_y(n: usize, s: usize) -> usize
    requires { (n ≤ 16) × (s ≤ 128) }
    ensures answer { (result ≡ row_y n s) × (result ≤ 7740) }
{
    60 + s * (n * 3 + 12)
}

// A word above its column.
fn write_column(to: &mut Writer, q: usize, w: usize)
    requires { (q ≤ 8) × (w ≤ 256) }
    ensures lent { to.new.out.ghost_name ≡ to.old.out.ghost_name }
    ensures written { Added (column_text q w) to.old.at to.old.out.now to.new.out.now to.new.at }
{
    write_sentence(to, b"<text x=\"#\" y=\"#\">", &[column_x(w), 40]);
    to.word(q, w);
    to.put(b"</text>\n");
}

// The size of the matrix, why it is drawn, and all words above their columns.
fn write_heading(to: &mut Writer, q: usize, n: usize, states: usize)
    requires { (q ≤ 8) × (n ≤ 16) × (states ≤ 128) }
    ensures lent { to.new.out.ghost_name ≡ to.old.out.ghost_name }
    ensures written { Added (heading q n states) to.old.at to.old.out.now to.new.out.now to.new.at }
{
    let words = words_of(q);
    let x = column_x(words);
    let y = row_y(n, states);
    write_sentence(
        to,
        b"<svg xmlns=\"http://www.w3.org/2000/svg\" font-family=\"monospace\" font-size=\"10\" \
        width=\"#\" height=\"#\">\n<rect width=\"100%\" height=\"100%\" fill=\"white\"/>\n\
        <text x=\"4\" y=\"16\">A picture of # states is not readable. \
        Rows are states, columns are words, entries are datum/next state.</text>\n",
        &[x, y, states],
    );
    for w in 0..words {
        write_column(to, q, w);
    }
}

// All that stands around the entries: the heading, and all states in front of their rows.
fn write_axes(to: &mut Writer, q: usize, n: usize, states: usize)
    requires { (q ≤ 8) × (n ≤ 16) × (states ≤ 128) }
    ensures lent { to.new.out.ghost_name ≡ to.old.out.ghost_name }
    ensures written { Added (axes q n states) to.old.at to.old.out.now to.new.out.now to.new.at }
{
    write_heading(to, q, n, states);
    for s in 0..states {
        let y = row_y(n, s);
        write_sentence(to, b"<text x=\"4\" y=\"#\">#</text>\n", &[y, s]);
    }
}

// The entry of an edge.
fn write_entry(to: &mut Writer, code: &Table, n: usize, s: usize, d: usize)
    requires { (n ≤ 16) × (s < 128) × (d < 16) }
    ensures lent { to.new.out.ghost_name ≡ to.old.out.ghost_name }
    ensures written { Added (cell n code.now.q s d (word_at code.now s d) (next_at code.now s d)) to.old.at
        to.old.out.now to.new.out.now to.new.at }
{
    let x = column_x(word_at(code, s, d)) + d % 4 * 40;
    let y = row_y(n, s) + d / 4 * 12;
    let t = next_at(code, s, d);
    write_sentence(to, b"<text x=\"#\" y=\"#\">#/#</text>\n", &[x, y, d, t]);
}

// The matrix, with n data a state.
pub fn write_matrix(to: &mut Writer, t: &Table, n: usize)
    requires { Ready t.now × (n ≡ 2 ^ t.now.p) }
    ensures lent { to.new.out.ghost_name ≡ to.old.out.ghost_name }
    ensures written { Added (matrix (code_in t.now)) to.old.at to.old.out.now to.new.out.now to.new.at }
{
    write_axes(to, t.q, n, t.states);
    for e in 0..t.states * n {
        write_entry(to, t, n, e / n, e % n);
    }
    to.put(b"</svg>\n");
}

// The matrix after the place `first`, with n data a state; the answer is the place after it.
pub fn put_matrix(out: &mut [u8], first: usize, t: Table, n: usize) -> usize
    requires { Ready t × (n ≡ 2 ^ t.p) }
    ensures written { Added (matrix (code_in t)) first out.old out.new result }
{
    let mut writer = Writer::new(out, first);
    write_matrix(&mut writer, &t, n);
    writer.at
}
