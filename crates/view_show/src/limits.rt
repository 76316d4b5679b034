// A constraint in words: its (d, k) if it is one, otherwise its next states.
ghost use Rattle.std.specs.Prelude.{if◌then◌else◌, ◌≡◌, ◌&&◌, ◌≤◌, ◌<◌, eqb};
ghost use Rattle.laws.specs.Lists.{range, all};
ghost use Rattle.constraint.specs.Value.{next_states_at, constraint_of};
ghost use Rattle.text.specs.Texts.{Added};
ghost use Rattle.sentences.specs.Sentences.{sentence};
ghost use Rattle.view_show.specs.Limits.{alike, least_run, state_line, states_to, constraint_lines};

use constraint::Constraint;
use sentences::write_sentence;
use text::Writer;

// Whether two states have the same next states.
fn is_alike(z: u8, o: u8, zero: u8, one: u8) -> bool
    ensures answer { result ≡ (eqb z zero && eqb o one) }
{
    z == zero && o == one
}

// Whether every state of the first constraint has the same next states in the second.
fn is_same(a: Constraint, b: Constraint) -> bool
    requires { a.states ≤ 16 }
    ensures answer { result ≡ all (λ i. alike (next_states_at a i) (next_states_at b i)) (range a.states) }
{
    (0..a.states).all(|i| is_alike(a.zero[i], a.one[i], b.zero[i], b.one[i]))
}

// The d with which the constraint is (d, k), or the number of its states.
fn least_run(c: Constraint) -> usize
    requires { c.states ≤ 16 }
    ensures answer { result ≡ least_run (constraint_of c) }
{
    for d in 0..c.states {
        if is_same(c, Constraint::run_length(d, c.states - 1)) {
            return d;
        }
    }
    c.states
}

// The first of two sentences if something is so, otherwise the second.
fn write_either(to: &mut Writer, so: bool, first: &[u8], second: &[u8], numbers: &[usize])
    ensures lent { to.new.out.ghost_name ≡ to.old.out.ghost_name }
    ensures written { Added (if so then sentence first.now numbers.now
        else sentence second.now numbers.now)
        to.old.at to.old.out.now to.new.out.now to.new.at }
{
    if so {
        write_sentence(to, first, numbers);
    } else {
        write_sentence(to, second, numbers);
    }
}

// The line of a state.
fn write_state(to: &mut Writer, s: usize, zero: u8, one: u8)
    ensures lent { to.new.out.ghost_name ≡ to.old.out.ghost_name }
    ensures written { Added (state_line s zero one) to.old.at to.old.out.now to.new.out.now to.new.at }
{
    write_either(
        to,
        zero == 255,
        b"state #: bit 0 to none",
        b"state #: bit 0 to #",
        &[s, zero as usize],
    );
    write_either(
        to,
        one == 255,
        b", bit 1 to none\n",
        b", bit 1 to #\n",
        &[one as usize],
    );
}

// The lines of all states.
fn write_states(to: &mut Writer, c: Constraint)
    requires { c.states ≤ 16 }
    ensures lent { to.new.out.ghost_name ≡ to.old.out.ghost_name }
    ensures written { Added (states_to (constraint_of c) c.states) to.old.at to.old.out.now to.new.out.now
        to.new.at }
{
    to.put(b"");
    for s in 0..c.states {
        write_state(to, s, c.zero[s], c.one[s]);
    }
}

// The constraint and its start.
pub fn write_constraint(to: &mut Writer, c: Constraint, start: usize)
    requires { c.states ≤ 16 }
    ensures lent { to.new.out.ghost_name ≡ to.old.out.ghost_name }
    ensures written { Added (constraint_lines (constraint_of c) start) to.old.at to.old.out.now to.new.out.now
        to.new.at }
{
    let d = least_run(c);
    if d < c.states {
        write_sentence(
            to,
            b"constraint (#,#), start #\n",
            &[d, c.states - 1, start],
        );
    } else {
        write_sentence(
            to,
            b"constraint of # state~, start #\n",
            &[c.states, c.states, start],
        );
        write_states(to, c);
    }
}
