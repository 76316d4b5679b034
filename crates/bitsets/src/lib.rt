// Sets of states in two machine words, one bit for each of 128 states.
#![tactic(auto)]

ghost use Rattle.std.specs.Prelude.{◌≡◌, true, false, ◌||◌, ◌&&◌, ℕ, ◌-◌, ◌^◌, ◌≤◌, ◌<◌, ◌∷◌, [], eqb, ltb, length};
ghost use Rattle.std.specs.Prelude.{IfSome, MatchOption};
ghost use Rattle.bitsets.specs.BitSets.{holds, members_of, meeting};

// A set: the state i is the bit i of `low`, and from 64 on the bit i - 64 of `high`.
#[derive(Clone, Copy, PartialEq, Eq)]
pub struct BitSet {
    pub low: u64,
    pub high: u64,
}

// The k lowest bits of a word set.
fn lowest_bits(k: usize) -> u64
    requires { k < 64 }
    ensures answer { result ≡ 2 ^ k - 1 }
{
    (1u64 << k) - 1
}

impl BitSet {
    // The set of no state.
    pub fn none() -> BitSet
        ensures answer { (i : ℕ) → holds result i ≡ false }
    {
        BitSet { low: 0, high: 0 }
    }

    // The set of the first n states.
    pub fn every(n: usize) -> BitSet
        requires { n ≤ 128 }
        ensures answer { (i : ℕ) → holds result i ≡ ltb i n }
    {
        if n < 64 {
            return BitSet {
                low: lowest_bits(n),
                high: 0,
            };
        }
        if n < 128 {
            return BitSet {
                low: u64::MAX,
                high: lowest_bits(n - 64),
            };
        }
        BitSet {
            low: u64::MAX,
            high: u64::MAX,
        }
    }

    // Whether the state i is in the set.
    pub fn has(self, i: usize) -> bool
        requires { i < 128 }
        ensures answer { result ≡ holds self i }
    {
        if i < 64 {
            (self.low >> i) & 1 == 1
        } else {
            (self.high >> (i - 64)) & 1 == 1
        }
    }

    // The set with the state i.
    pub fn with(self, i: usize) -> BitSet
        requires { i < 128 }
        ensures answer { (j : ℕ) → holds result j ≡ (holds self j || eqb i j) }
    {
        if i < 64 {
            BitSet {
                low: self.low | (1 << i),
                high: self.high,
            }
        } else {
            BitSet {
                low: self.low,
                high: self.high | (1 << (i - 64)),
            }
        }
    }

    // The set, with the state i where the test passed.
    pub fn with_if(self, i: usize, passed: bool) -> BitSet
        requires { i < 128 }
        ensures answer { (j : ℕ) → holds result j ≡ (holds self j || (passed && eqb i j)) }
    {
        if passed { self.with(i) } else { self }
    }

    // The states in either set.
    pub fn join(self, other: BitSet) -> BitSet
        ensures answer { (j : ℕ) → holds result j ≡ (holds self j || holds other j) }
    {
        BitSet {
            low: self.low | other.low,
            high: self.high | other.high,
        }
    }

    // The states in both sets.
    pub fn meet(self, other: BitSet) -> BitSet
        ensures answer { (j : ℕ) → holds result j ≡ (holds self j && holds other j) }
    {
        BitSet {
            low: self.low & other.low,
            high: self.high & other.high,
        }
    }

    // Whether the set has no state.
    pub fn is_empty(self) -> bool
        ensures answer { result ≡ eqb (length (members_of self)) 0 }
    {
        self.low == 0 && self.high == 0
    }

    // Whether some state is in both sets.
    pub fn meets(self, other: BitSet) -> bool
        ensures answer { result ≡ meeting 128 self other }
    {
        !self.meet(other).is_empty()
    }

    // How many states the set has.
    pub fn count(self) -> u32
        ensures answer { result ≡ length (members_of self) }
    {
        self.low.count_ones() + self.high.count_ones()
    }

    // Takes the lowest state out of the set; none where the set has no state.
    pub fn pop(&mut self) -> Option<usize>
        ensures answer { MatchOption result ((members_of self.old ≡ []) × (self.new ≡ self.old))
            (λ i. members_of self.old ≡ i ∷ members_of self.new) }
        ensures below { IfSome result (λ i. i < 128) }
    {
        if self.low != 0 {
            let lowest = self.low.trailing_zeros() as usize;
            self.low &= self.low - 1;
            return Some(lowest);
        }
        if self.high != 0 {
            let lowest = 64 + self.high.trailing_zeros() as usize;
            self.high &= self.high - 1;
            return Some(lowest);
        }
        None
    }
}
