// The table of a code with its rate, its window and its constraint in words.
#![tactic(auto)]

ghost use Rattle.std.specs.Prelude.{◌≡◌};
ghost use Rattle.text.specs.Texts.{Added};
ghost use Rattle.view_show.specs.Shown.{window_line, whole, show_text};

mod limits;

use crate::limits::write_constraint;
use sentences::write_sentence;
use table::Table;
use text::Writer;
use view_listing::listing::write_listing;

// The line of the window.
fn write_window(to: &mut Writer, m: usize, a: usize)
    ensures lent { to.new.out.ghost_name ≡ to.old.out.ghost_name }
    ensures written { Added (window_line m a) to.old.at to.old.out.now to.new.out.now to.new.at }
{
    if m == 0 && a == 0 {
        write_sentence(
            to,
            b"memory #, lookahead #: a bad word at i can spoil block i\n",
            &[m, a],
        );
    } else {
        write_sentence(
            to,
            b"memory #, lookahead #: a bad word at i can spoil blocks i - # to i + #\n",
            &[m, a, a, m],
        );
    }
}

// The table is one that a record can give, with its window.
fn is_whole(t: &Table) -> bool
    ensures answer { result ≡ whole t.now }
{
    t.memory <= 15 && t.lookahead <= 15 && t.is_ready()
}

// The code in words and its listing.
pub fn write_show(to: &mut Writer, t: &Table)
    ensures lent { to.new.out.ghost_name ≡ to.old.out.ghost_name }
    ensures written { Added (show_text t.now) to.old.at to.old.out.now to.new.out.now to.new.at }
{
    if !is_whole(t) {
        to.put(b"");
        return;
    }
    write_sentence(
        to,
        b"# data bit~ to # channel bit~, # state~\n",
        &[t.p, t.p, t.q, t.q, t.states, t.states],
    );
    write_window(to, t.memory, t.lookahead);
    write_constraint(to, t.constraint, t.start);
    write_sentence(to, b"tail datum #\n", &[t.tail]);
    write_listing(to, t);
}

// The code in words and its listing after the first `at` bytes; the answer is the place after them.
pub fn show(t: Table, out: &mut [u8], at: usize) -> usize
    ensures written { Added (show_text t) at out.old out.new result }
{
    let mut writer = Writer::new(out, at);
    write_show(&mut writer, &t);
    writer.at
}
