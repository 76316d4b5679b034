// Two constraints joined to one: its states are the pairs of states that are reachable from both states 0.
#![tactic(auto)]

ghost use Rattle.std.specs.Prelude.{◌≡◌, map, ℕ, ◌+◌, ◌≤◌, ◌<◌, ◌==◌, leb, true, is_some, IfSome, length, position};
ghost use Rattle.laws.specs.Lists.{index_of};
ghost use Rattle.arrayvec.specs.ArrayVec.{array_vec_len};
ghost use Rattle.constraint.specs.Walking.{Lawful};
ghost use Rattle.constraint.specs.Value.{constraint_of};
ghost use Rattle.joining.specs.Joined.{allowed, leads_to, adjoin, met, walked, pairs, next_pair, joined_state, joined};
ghost use Rattle.joining.specs.Small.{Small};

use arrayvec::ArrayVec;
use constraint::Constraint;

// Two constraints on one medium, whose next states are below 16. State x of the first and state y of the second are the pair
// x * 16 + y. Pairs are listed in the order in which they are met: each of 16 walks adds two at most, so there are at
// most 33.
#[derive(Clone, Copy)]
struct Both {
    first: Constraint,
    second: Constraint,
    ghost small_first: { Small (constraint_of first) },
    ghost small_second: { Small (constraint_of second) },
}

// Where a pair stands in the list.
fn place_of(list: &[u8], z: u8) -> Option<usize>
    ensures answer { result ≡ position (λ p. p == z) list.now }
{
    list.iter().position(|p| *p == z)
}

// The number of a pair, or the list's length where it is not in the list.
fn number_of(list: &[u8], z: u8) -> usize
    ensures answer { result ≡ index_of z list.now }
    ensures past { result ≤ length list.now }
{
    place_of(list, z).unwrap_or(list.len())
}

// A pair comes last in the list, unless it is there.
fn adjoin(list: &mut ArrayVec<u8, 33>, z: u8)
    requires { array_vec_len list.old < 33 }
    ensures answer { list.new.items ≡ adjoin z list.old.items }
    ensures past { array_vec_len list.new ≤ array_vec_len list.old + 1 }
{
    if !list.contains(&z) {
        list.push(z);
    }
}

impl Both {
    // Whether both constraints allow bit b from the pair z.
    fn is_allowed(&self, b: usize, z: u8) -> bool
        ensures answer { result ≡ allowed (constraint_of self.now.first) (constraint_of self.now.second) b z }
    {
        self.first.after(z / 16, b) != 255 && self.second.after(z % 16, b) != 255
    }

    // The pair to which bit b, which both constraints allow, leads from the pair z.
    fn leads_to(&self, b: usize, z: u8) -> u8
        requires { allowed (constraint_of self.now.first) (constraint_of self.now.second) b z ≡ true }
        ensures answer { result ≡ leads_to (constraint_of self.now.first) (constraint_of self.now.second) b z }
    {
        self.first.after(z / 16, b) * 16 + self.second.after(z % 16, b)
    }

    // The list after bit b from the pair z.
    fn meet(&self, list: &mut ArrayVec<u8, 33>, b: usize, z: u8)
        requires { array_vec_len list.old < 33 }
        ensures answer { list.new.items
            ≡ met (constraint_of self.now.first) (constraint_of self.now.second) b z list.old.items }
        ensures past { array_vec_len list.new ≤ array_vec_len list.old + 1 }
    {
        if self.is_allowed(b, z) {
            adjoin(list, self.leads_to(b, z));
        }
    }

    // The list after pair number i is walked.
    fn walk_pair(&self, list: &mut ArrayVec<u8, 33>, i: usize)
        requires { array_vec_len list.old ≤ 31 }
        ensures answer { list.new.items
            ≡ walked (constraint_of self.now.first) (constraint_of self.now.second) i list.old.items }
        ensures past { array_vec_len list.new ≤ array_vec_len list.old + 2 }
    {
        if i < list.len() {
            let z = list[i];
            self.meet(list, 0, z);
            self.meet(list, 1, z);
        }
    }

    // The pairs that are reachable from both states 0.
    fn all_pairs(&self) -> ArrayVec<u8, 33>
        ensures answer { result.items ≡ pairs (constraint_of self.now.first) (constraint_of self.now.second) }
    {
        let mut list = ArrayVec::new();
        list.push(0);
        for i in 0..16 {
            self.walk_pair(&mut list, i);
        }
        list
    }

    // The number of the pair to which bit b leads from the pair z, 255 for none, as a constraint holds it.
    fn next_pair(&self, list: &[u8], b: usize, z: u8) -> u8
        requires { length list.now ≤ 16 }
        ensures answer { result
            ≡ next_pair (constraint_of self.now.first) (constraint_of self.now.second) list.now b z }
    {
        if self.is_allowed(b, z) {
            number_of(list, self.leads_to(b, z)) as u8
        } else {
            255
        }
    }

    // The constraint whose states are the pairs.
    fn join_states(&self, list: &[u8]) -> Constraint
        requires { length list.now ≤ 16 }
        ensures answer { constraint_of result
            ≡ map (joined_state (constraint_of self.now.first) (constraint_of self.now.second) list.now) list.now }
    {
        let mut zero = [255u8; 16];
        let mut one = [255u8; 16];
        for (s, z) in list.iter().enumerate() {
            zero[s] = self.next_pair(list, 0, *z);
            one[s] = self.next_pair(list, 1, *z);
        }
        Constraint {
            states: list.len(),
            zero,
            one,
        }
    }
}

// Both constraints as one, where there are at most 16 pairs. The premise holds of every constraint that is read.
pub fn join(c: Constraint, d: Constraint) -> Option<Constraint>
    requires { Lawful (constraint_of c) × Lawful (constraint_of d) }
    ensures few { is_some result ≡ leb (length (pairs (constraint_of c) (constraint_of d))) 16 }
    ensures kept { IfSome result (λ r. constraint_of r ≡ joined (constraint_of c) (constraint_of d)) }
{
    let both = Both {
        first: c,
        second: d,
    };
    let list = both.all_pairs();
    if 16 < list.len() {
        return None;
    }
    Some(both.join_states(list.as_slice()))
}
