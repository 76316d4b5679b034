// The lines of the splits of a graph, and of the graph and the table that they end with.
#![tactic(auto)]

ghost use Rattle.std.specs.Prelude.{◌≡◌, ◌++◌, ◌≤◌, ◌<◌, map};
ghost use Rattle.laws.specs.Lists.{sum};
ghost use Rattle.text.specs.Texts.{Added};
ghost use Rattle.compile_graph.specs.Value.{weights_in, work_in};
ghost use Rattle.compile_split.specs.SplitParts.{Splits};
ghost use Rattle.trace_splits.specs.SplitText.{graph_line, kept_text, split_line, split_lines, split_text};
ghost use Rattle.trace_splits.specs.ChoiceParts.{key_text, Begins, Ripe};
ghost use Rattle.compile_order.specs.EdgeKeys.{arc_of};

use crate::choices::next_choice;
use compile_graph::Graph;
use compile_parts::is_unfinished;
use compile_split::split_graph::{split, split_all};
use compile_table::finish_table::finish_table;
use sentences::write_sentence;
use text::Writer;

mod choices;

// The edge with a key.
fn write_edge(to: &mut Writer, q: usize, key: usize)
    requires { q ≤ 8 }
    ensures lent { to.new.out.ghost_name ≡ to.old.out.ghost_name }
    ensures written { Added (key_text q key) to.old.at to.old.out.now to.new.out.now to.new.at }
{
    to.word(q, key / 128);
    write_sentence(to, b"/# ", &[key % 128]);
}

// The state of a choice, its weight, and the edges that it keeps.
fn write_kept(to: &mut Writer, state: usize, weight: usize, kept: &[usize], q: usize)
    requires { q ≤ 8 }
    ensures lent { to.new.out.ghost_name ≡ to.old.out.ghost_name }
    ensures written { Added (kept_text q state weight (map (arc_of state) kept.now)) to.old.at to.old.out.now
        to.new.out.now to.new.at }
{
    write_sentence(
        to,
        b"split state # of weight #: it keeps ",
        &[state, weight],
    );
    for key in kept {
        write_edge(to, q, *key);
    }
}

// The line of the next split.
fn write_split(to: &mut Writer, g: Graph, n: usize, q: usize)
    requires { (q ≤ 8) × Ripe n g }
    ensures lent { to.new.out.ghost_name ≡ to.old.out.ghost_name }
    ensures written { Added (split_line q n (work_in g)) to.old.at to.old.out.now to.new.out.now to.new.at }
{
    let c = next_choice(g, n);
    let kept = &c.keys.as_slice()[c.run.from..c.run.from + c.run.count];
    write_kept(to, c.state, c.weight, kept, q);
    write_sentence(
        to,
        b"with weight #, new state # takes the other edges with weight #\n",
        &[c.share, c.fresh, c.weight - c.share],
    );
}

// The graph, and the lines of all splits.
fn write_splits(to: &mut Writer, g: Graph, n: usize, q: usize)
    requires { (q ≤ 8) × Splits n g }
    ensures lent { to.new.out.ghost_name ≡ to.old.out.ghost_name }
    ensures written { Added (graph_line g.states g.edges ++ split_lines (sum (weights_in g)) q n (work_in g)) to.old.at
        to.old.out.now to.new.out.now to.new.at }
{
    write_sentence(
        to,
        b"graph of # state~ and # edge~\n",
        &[g.states, g.states, g.edges, g.edges],
    );
    let mut h = g;
    while is_unfinished(h, n) {
        write_split(to, h, n, q);
        let Some(next) = split(h, n) else {
            return;
        };
        h = next;
    }
}

// The graph, its splits, the graph that they end with, and its table.
pub fn write_splitting(to: &mut Writer, g: Graph, n: usize, q: usize)
    requires { Begins n q g }
    ensures lent { to.new.out.ghost_name ≡ to.old.out.ghost_name }
    ensures written { Added (split_text q n (work_in g)) to.old.at to.old.out.now to.new.out.now to.new.at }
{
    write_splits(to, g, n, q);
    let Some(h) = split_all(g, n) else {
        return;
    };
    let rows = finish_table(h, n);
    write_sentence(
        to,
        b"finished with # state~ and # edge~\ntable of # state~\n",
        &[
            h.states,
            h.states,
            h.edges,
            h.edges,
            rows.states,
            rows.states,
        ],
    );
}

// The same after the first `at` bytes; the answer is the place after it.
pub fn put_splitting(out: &mut [u8], at: usize, g: Graph, n: usize, q: usize) -> usize
    requires { Begins n q g }
    ensures written { Added (split_text q n (work_in g)) at out.old out.new result }
{
    let mut writer = Writer::new(out, at);
    write_splitting(&mut writer, g, n, q);
    writer.at
}
