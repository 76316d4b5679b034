// A constraint read from a row of bytes with its refusals: K, then two bytes a state.
ghost use Rattle.std.specs.Prelude.{◌≡◌, ◌&&◌, map, ◌+◌, ◌*◌, ◌≤◌, leb, IfOk, length};
ghost use Rattle.laws.specs.Lists.{all, range};
ghost use Rattle.constraint.specs.Walking.{Lawful};
ghost use Rattle.constraint.specs.Value.{constraint_of};
ghost use Rattle.table.specs.Formed.{good_state};
ghost use Rattle.compile_job.specs.Jobs.{constraint_from};
ghost use Rattle.compile_job.specs.JobValues.{state_at, good_state_at, sized, constraint_outcome};

use answer::Refusal;
use constraint::Constraint;

// Whether x is from low to high.
pub fn between(x: usize, low: usize, high: usize) -> bool
    ensures answer { result ≡ (leb low x && leb x high) }
{
    (low..=high).contains(&x)
}

// Whether s is one of `count` states, or none.
fn good_state(s: u8, count: usize) -> bool
    ensures answer { result ≡ good_state count s }
{
    s == 255 || (s as usize) < count
}

// Whether both next states of state s are states or none.
fn good_next(bytes: &[u8], s: usize, count: usize) -> bool
    requires { (s ≤ 16) × (3 + s * 2 ≤ length bytes.now) }
    ensures answer { result ≡ good_state_at bytes.now count s }
{
    good_state(bytes[1 + s * 2], count) && good_state(bytes[2 + s * 2], count)
}

// Whether all next states are states or none: otherwise refusal 2.
fn good_states(bytes: &[u8], count: usize) -> bool
    requires { (count ≤ 16) × (1 + count * 2 ≤ length bytes.now) }
    ensures answer { result ≡ all (good_state_at bytes.now count) (range count) }
{
    for s in 0..count {
        if !good_next(bytes, s, count) {
            return false;
        }
    }
    true
}

// The constraint of `count` states.
fn states_of(bytes: &[u8], count: usize) -> Constraint
    requires { (count ≤ 16) × (1 + count * 2 ≤ length bytes.now) }
    ensures answer { constraint_of result ≡ map (state_at bytes.now) (range count) }
    ensures kept { result.states ≡ count }
{
    let mut zero = [255u8; 16];
    let mut one = [255u8; 16];
    for s in 0..count {
        zero[s] = bytes[1 + s * 2];
        one[s] = bytes[2 + s * 2];
    }
    Constraint {
        states: count,
        zero,
        one,
    }
}

// Whether a constraint that takes `size` bytes fits those that are there: all of them, all but a byte for each state,
// or as many at least.
fn is_sized(whole: bool, weights: bool, size: usize, bytes: usize) -> bool
    requires { size ≤ 33 }
    ensures answer { result ≡ sized whole weights size bytes }
{
    if !whole {
        return size <= bytes;
    }
    if !weights {
        return size == bytes;
    }
    size == bytes || size + size / 2 == bytes
}

// The constraint at the start of the bytes, or the refusal: "8 for a missing K, K by 2, 8, next states by 2". It is to
// take all of the bytes, or all but its weights, or bytes may be left over.
pub fn read_constraint(bytes: &[u8], whole: bool, weights: bool) -> Result<Constraint, Refusal>
    ensures answer { constraint_outcome result ≡ constraint_from (sized whole weights) bytes.now }
    ensures kept { IfOk result (λ c. Lawful (constraint_of c)) }
{
    if bytes.len() < 1 {
        return Err(Refusal::Length);
    }
    let count = bytes[0] as usize;
    if !between(count, 1, 16) {
        return Err(Refusal::States);
    }
    if !is_sized(whole, weights, 1 + 2 * count, bytes.len()) {
        return Err(Refusal::Length);
    }
    if !good_states(bytes, count) {
        return Err(Refusal::States);
    }
    Ok(states_of(bytes, count))
}
