// The listing of a table: "p, q, states, m, a; then state, datum, word in binary, next".
ghost use Rattle.std.specs.Prelude.{◌≡◌, ◌*◌, ◌^◌, ◌≤◌, length};
ghost use Rattle.answer.specs.Outcomes.{fitting, answer_of, output_of};
ghost use Rattle.table.specs.Value.{code_in, Ready};
ghost use Rattle.text.specs.Texts.{Added};
ghost use Rattle.view_listing.specs.Edges.{lines_to};
ghost use Rattle.view_listing.specs.Listing.{entry, listing};

use crate::filling::fill;
use answer::Refusal;
use sentences::write_sentence;
use table::Table;
use table::chains::ways;
use text::Writer;

// The line of an edge.
fn write_entry(to: &mut Writer, q: usize, s: usize, d: usize, w: usize, t: usize)
    requires { q ≤ 8 }
    ensures lent { to.new.out.ghost_name ≡ to.old.out.ghost_name }
    ensures written { Added (entry q s d w t) to.old.at to.old.out.now to.new.out.now to.new.at }
{
    write_sentence(to, b"# # ", &[s, d]);
    to.word(q, w);
    write_sentence(to, b" #\n", &[t]);
}

// The lines of all edges, n a state.
fn write_entries(to: &mut Writer, code: &Table, n: usize)
    requires { Ready code.now × (n ≡ 2 ^ code.now.p) }
    ensures lent { to.new.out.ghost_name ≡ to.old.out.ghost_name }
    ensures written { Added (lines_to entry code.now (code.now.states * n)) to.old.at to.old.out.now to.new.out.now
        to.new.at }
{
    to.put(b"");
    for e in 0..code.states * n {
        let i = e / n * 16 + e % n;
        write_entry(
            to,
            code.q,
            e / n,
            e % n,
            code.word[i] as usize,
            code.next[i] as usize,
        );
    }
}

// The listing.
pub fn write_listing(to: &mut Writer, t: &Table)
    requires { Ready t.now }
    ensures lent { to.new.out.ghost_name ≡ to.old.out.ghost_name }
    ensures written { Added (listing (code_in t.now)) to.old.at to.old.out.now to.new.out.now to.new.at }
{
    write_sentence(
        to,
        b"# # # # #\n",
        &[t.p, t.q, t.states, t.memory, t.lookahead],
    );
    write_entries(to, t, ways(t.p));
}

// The listing after the first `at` bytes; the answer is the place after it.
pub fn put_listing(out: &mut [u8], at: usize, t: Table) -> usize
    requires { Ready t }
    ensures written { Added (listing (code_in t)) at out.old out.new result }
{
    let mut writer = Writer::new(out, at);
    write_listing(&mut writer, &t);
    writer.at
}

// The listing of a table in the output, or refusal 13.
pub fn list(t: Table, out: &mut [u8]) -> Result<usize, Refusal>
    requires { Ready t }
    ensures answer { result ≡ answer_of (fitting (length out.old) (listing (code_in t))) }
    ensures written { out.new ≡ output_of (fitting (length out.old) (listing (code_in t))) out.old }
{
    let mut lines = [0u8; 43062];
    let end = put_listing(&mut lines, 0, t);
    fill(out, &lines[..end])
}
