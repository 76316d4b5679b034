// The fields after the header, read into a table's arrays.
ghost use Rattle.std.specs.Prelude.{◌≡◌, map, ◌+◌, ◌*◌, ◌≤◌, length};
ghost use Rattle.laws.specs.Lists.{range};
ghost use Rattle.bits.specs.Fields.{bits_of};
ghost use Rattle.constraint.specs.Value.{constraint_of};
ghost use Rattle.table.specs.Value.{code_in};
ghost use Rattle.record.specs.Layout.{header_bits, state_size, size};
ghost use Rattle.record.specs.Checks.{code_at};
ghost use Rattle.record.specs.Places.{next_in, state_in, Column, Reach, Small};

use crate::numbers::{FRONT, STATE};
use constraint::Constraint;
use table::{Head, Table};

// The next state at the bit place `at`, 255 for none.
fn next_of(bytes: &[u8], at: usize) -> u8
    requires { (at ≤ 65536) × (at + 5 ≤ 8 * length bytes.now) }
    ensures answer { result ≡ next_in (bits_of bytes.now) at }
{
    if bits::get(bytes, at, 1) == 0 {
        return 255;
    }
    bits::get(bytes, at + 1, 4)
}

// The constraint of `count` states.
pub fn states_of(bytes: &[u8], count: usize) -> Constraint
    requires { (count ≤ 16) × (header_bits + count * state_size ≤ 8 * length bytes.now) }
    ensures answer { constraint_of result ≡ map (state_in (bits_of bytes.now)) (range count) }
    ensures kept { result.states ≡ count }
{
    let mut zero = [0u8; 16];
    let mut one = [0u8; 16];
    for s in 0..count {
        zero[s] = next_of(bytes, FRONT + s * STATE);
        one[s] = next_of(bytes, FRONT + 5 + s * STATE);
    }
    Constraint {
        states: count,
        zero,
        one,
    }
}

// For each of `edges` edges, n a state, the field of `width` bits: the first at the bit place `first`, each of the
// others `step` bits after the one before.
pub fn column(
    bytes: &[u8],
    n: usize,
    edges: usize,
    first: usize,
    step: usize,
    width: usize,
) -> [u8; 2048]
    requires { Reach (8 * length bytes.now) n edges first step width }
    ensures answer { Column (bits_of bytes.now) n edges first step width result }
{
    let mut a = [0u8; 2048];
    for e in 0..edges {
        a[e / n * 16 + e % n] = bits::get(bytes, first + e * step, width);
    }
    a
}

// The table of a record with the numbers f in front.
pub fn table_of(bytes: &[u8], f: Head) -> Table
    requires { Small f × (length bytes.now ≡ size f) }
    ensures answer { code_in result ≡ code_at f (bits_of bytes.now) }
{
    let n = bits::power(f.p);
    let edges = f.states * n;
    let first = FRONT + f.count * STATE;
    let step = f.q + 7;
    let constraint = states_of(bytes, f.count);
    let word = column(bytes, n, edges, first, step, f.q);
    let next = column(bytes, n, edges, first + f.q, step, 7);
    Table {
        p: f.p,
        q: f.q,
        states: f.states,
        memory: f.memory,
        lookahead: f.lookahead,
        constraint,
        start: f.start,
        tail: f.tail,
        word,
        next,
    }
}
