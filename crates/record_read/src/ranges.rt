// The fields after the header are in range: "record field out of range, absent state not 0, or fill not 0" is
// refusal 7.
ghost use Rattle.std.specs.Prelude.{◌≡◌, ◌+◌, ◌*◌, ◌≤◌, eqb, length};
ghost use Rattle.laws.specs.Lists.{all, range};
ghost use Rattle.bits.specs.Fields.{bits_of, field};
ghost use Rattle.record.specs.Layout.{header_bits, state_size, bit_count, size, fill};
ghost use Rattle.record.specs.Parse.{good_field};
ghost use Rattle.record.specs.Checks.{rest_good};
ghost use Rattle.record.specs.Places.{good_at, target_at, Small};

use record::numbers;
use record::numbers::{FRONT, STATE};
use table::Head;

// Whether the next state at the bit place `at` is one of `count` states, or absent and 0.
fn good_next(bytes: &[u8], at: usize, count: usize) -> bool
    requires { (at ≤ 65536) × (at + 5 ≤ 8 * length bytes.now) }
    ensures answer { result ≡ good_field count (field (bits_of bytes.now) at 1)
        (field (bits_of bytes.now) (at + 1) 4) }
{
    let next = bits::get(bytes, at + 1, 4) as usize;
    if bits::get(bytes, at, 1) == 0 {
        next == 0
    } else {
        next < count
    }
}

// Whether the next states of `count` constraint states are in range.
fn good_states(bytes: &[u8], count: usize) -> bool
    requires { (count ≤ 16) × (header_bits + count * state_size ≤ 8 * length bytes.now) }
    ensures answer { result ≡ all (good_at (bits_of bytes.now) count) (range (2 * count)) }
{
    (0..2 * count).all(|i| good_next(bytes, FRONT + i * 5, count))
}

// Whether every edge leads to one of the states: the next state of the first stands at the bit place `first`, and those
// of the others `step` bits apart.
fn good_targets(bytes: &[u8], edges: usize, first: usize, step: usize, states: usize) -> bool
    requires { (edges ≤ 2048) × (first ≤ 256) × (step ≤ 15)
        × (first + edges * step + 7 ≤ 8 * length bytes.now + step) }
    ensures answer { result ≡ all (target_at (bits_of bytes.now) first step states) (range edges) }
{
    (0..edges).all(|e| (bits::get(bytes, first + e * step, 7) as usize) < states)
}

// Whether zero bits fill the last byte.
fn good_fill(bytes: &[u8], f: Head) -> bool
    requires { Small f × (length bytes.now ≡ size f) }
    ensures answer { result ≡ eqb (field (bits_of bytes.now) (bit_count f) (fill f)) 0 }
{
    let at = numbers::bit_count(f);
    bits::get(bytes, at, 8 * bytes.len() - at) == 0
}

// Whether all fields after the header are in range: otherwise refusal 7.
pub fn good_rest(bytes: &[u8], f: Head) -> bool
    requires { Small f × (length bytes.now ≡ size f) }
    ensures answer { result ≡ rest_good f (bits_of bytes.now) }
{
    let edges = f.states * bits::power(f.p);
    let first = FRONT + f.count * STATE + f.q;
    good_states(bytes, f.count)
        && good_targets(bytes, edges, first, f.q + 7, f.states)
        && good_fill(bytes, f)
}
