// The state diagram of a code as a Graphviz digraph, or its matrix.
#![tactic(auto)]

ghost use Rattle.std.specs.Prelude.{◌≡◌, ◌++◌, ◌*◌, ◌^◌, ◌≤◌, ◌<◌};
ghost use Rattle.text.specs.Texts.{Added};
ghost use Rattle.text.specs.Words.{binary};
ghost use Rattle.sentences.specs.Sentences.{sentence};
ghost use Rattle.table.specs.Value.{word_at, next_at, code_in, Ready};
ghost use Rattle.view_draw.specs.Drawn.{joined, opens, arrow_text, diagram, draw_text};

use sentences::write_sentence;
use table::Table;
use table::chains::ways;
use text::Writer;
use view_matrix::edges::{next_at, word_at};
use view_matrix::write_matrix;

// Whether the data d and j of state s lead to one state.
fn is_joined(code: &Table, s: usize, d: usize, j: usize) -> bool
    requires { (s < 128) × (d < 16) × (j < 16) }
    ensures answer { result ≡ joined (next_at code.now s) d j }
{
    next_at(code, s, j) == next_at(code, s, d)
}

// Whether no datum below d leads where d leads.
fn is_opening(code: &Table, s: usize, d: usize) -> bool
    requires { (s < 128) × (d < 16) }
    ensures answer { result ≡ opens (next_at code.now s) d }
{
    for j in 0..d {
        if is_joined(code, s, d, j) {
            return false;
        }
    }
    true
}

// A sentence, then the word of the edge of state s that carries d.
fn write_label(to: &mut Writer, pattern: &[u8], numbers: &[usize], code: &Table, s: usize, d: usize)
    requires { (code.now.q ≤ 8) × (s < 128) × (d < 16) }
    ensures lent { to.new.out.ghost_name ≡ to.old.out.ghost_name }
    ensures written { Added (sentence pattern.now numbers.now ++ binary code.now.q (word_at code.now s d)) to.old.at
        to.old.out.now to.new.out.now to.new.at }
{
    write_sentence(to, pattern, numbers);
    to.word(code.q, word_at(code, s, d));
}

// The arrow of state s for all data that lead where d leads, which is the first of them, with n data a state.
fn write_arrow(to: &mut Writer, code: &Table, n: usize, s: usize, d: usize)
    requires { (code.now.q ≤ 8) × (n ≤ 16) × (s < 128) × (d < n) }
    ensures lent { to.new.out.ghost_name ≡ to.old.out.ghost_name }
    ensures written { Added (arrow_text code.now.q n (word_at code.now s) (next_at code.now s) s d) to.old.at
        to.old.out.now to.new.out.now to.new.at }
{
    let t = next_at(code, s, d);
    write_label(to, b"  # -> # [label=\"#/", &[s, t, d], code, s, d);
    for j in d + 1..n {
        if is_joined(code, s, d, j) {
            write_label(to, b", #/", &[j], code, s, j);
        }
    }
    to.put(b"\"];\n");
}

// The diagram, with n edges a state.
fn write_diagram(to: &mut Writer, t: &Table, n: usize)
    requires { Ready t.now × (n ≡ 2 ^ t.now.p) }
    ensures lent { to.new.out.ghost_name ≡ to.old.out.ghost_name }
    ensures written { Added (diagram (code_in t.now)) to.old.at to.old.out.now to.new.out.now to.new.at }
{
    to.put(
        b"digraph code {\n  rankdir=LR;\n  node [shape=circle];\n  start [shape=point];\n  start -> 0;\n",
    );
    for e in 0..t.states * n {
        if is_opening(t, e / n, e % n) {
            write_arrow(to, t, n, e / n, e % n);
        }
    }
    to.put(b"}\n");
}

// The diagram, or the matrix for more than 24 states.
pub fn write_draw(to: &mut Writer, t: &Table)
    ensures lent { to.new.out.ghost_name ≡ to.old.out.ghost_name }
    ensures written { Added (draw_text t.now) to.old.at to.old.out.now to.new.out.now to.new.at }
{
    if !t.is_ready() {
        to.put(b"");
        return;
    }
    let n = ways(t.p);
    if t.states <= 24 {
        write_diagram(to, t, n);
    } else {
        write_matrix(to, t, n);
    }
}

// The diagram, or the matrix for more than 24 states, after the first `at` bytes; the answer is the place after it.
pub fn draw(t: Table, out: &mut [u8], at: usize) -> usize
    ensures written { Added (draw_text t) at out.old out.new result }
{
    let mut writer = Writer::new(out, at);
    write_draw(&mut writer, &t);
    writer.at
}
