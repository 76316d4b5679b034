// Sets of pairs of states in arrays that are lent, for each first state a set of second states: cleared, copied and
// compared. Only the rows of the first `states` states count.
ghost use Rattle.std.specs.Prelude.{◌≡◌, false, not, ◌&&◌, ◌||◌, ◌↔◌, ℕ, ◌≤◌, ◌<◌, eqb, ltb, take, IsTrue};
ghost use Rattle.table.specs.Marks.{some};
ghost use Rattle.bitsets.specs.BitSets.{holds, set_at};
ghost use Rattle.window_pairs.specs.PairSets.{pairs_in, Long, row_has};

use bitsets::BitSet;

// Takes every pair out of the set.
pub fn clear(states: usize, out: &mut [BitSet; 128])
    requires { (states ≤ 128) × Long out.old }
    ensures written { Long out.new × ((x y : ℕ) → x < states → holds (set_at out.new x) y ≡ false) }
{
    out[..states].fill(BitSet::none());
}

// Makes the set hold every pair of states.
pub fn fill(states: usize, out: &mut [BitSet; 128])
    requires { (states ≤ 128) × Long out.old }
    ensures written { Long out.new × ((x y : ℕ) → x < states → holds (set_at out.new x) y ≡ ltb y states) }
{
    out[..states].fill(BitSet::every(states));
}

// Puts the pair of the start with itself into the set.
pub fn add_start(out: &mut [BitSet; 128])
    requires { Long out.old }
    ensures written { Long out.new × ((x y : ℕ) → holds (set_at out.new x) y
        ≡ (holds (set_at out.old x) y || (eqb x 0 && eqb y 0))) }
{
    out[0] = out[0].with(0);
}

// No pair is in the set.
pub fn is_empty(states: usize, pairs: &[BitSet; 128]) -> bool
    requires { states ≤ 128 }
    ensures answer { result ≡ not (some (row_has states pairs.now) states) }
{
    let all = BitSet::every(states);
    for x in 0..states {
        if pairs[x].meets(all) {
            return false;
        }
    }
    true
}

// Makes the first rows of `out` those of `set`.
fn copy(states: usize, set: &[BitSet; 128], out: &mut [BitSet; 128])
    requires { (states ≤ 128) × Long out.old }
    ensures written { Long out.new × (take states out.new ≡ take states set.now) }
{
    for x in 0..states {
        out[x] = set[x];
    }
}

// Makes the set `out` hold the pairs of `set`; whether it had the same rows before.
pub fn replace(states: usize, set: &[BitSet; 128], out: &mut [BitSet; 128]) -> bool
    requires { (states ≤ 128) × Long out.old }
    ensures answer { IsTrue result ↔ (take states out.old ≡ take states set.now) }
    ensures written { Long out.new × (pairs_in states out.new ≡ pairs_in states set.now) }
{
    if out[..states] == set[..states] {
        return true;
    }
    copy(states, set, out);
    false
}
