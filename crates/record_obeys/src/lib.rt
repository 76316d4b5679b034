// The test that every recording obeys the constraint: the pairs of a table state and a constraint state that recordings
// reach are followed until none is new, and each is tested.
#![tactic(auto)]

ghost use Rattle.std.specs.Prelude.{◌≡◌, ◌≤◌, ◌<◌};
ghost use Rattle.table.specs.Value.{code_in};
ghost use Rattle.record_queue.specs.Places.{pair_after, finds_at, Queue};
ghost use Rattle.record_obeys.specs.Obeys.{obeys};
ghost use Rattle.record_obeys.specs.Obeying.{Followed, Followable};

use record_queue::{finds_all, put, put_targets};
use table::{Table, chains};

// The words of all places that recordings reach find their way, where start is the place of the pair in which they
// start; the set and the list begin empty.
fn follow_from(
    word: &[u8; 2048],
    next: &[u8; 2048],
    power: &[u8; 4096],
    n: usize,
    start: usize,
    set: &mut [bool; 2048],
    list: &mut [u16; 2048],
) -> bool
    requires { (start < 2048) × (n ≤ 16) × Queue set.old list.old 0 }
    ensures answer { Followed (pair_after word.now next.now power.now)
        (finds_at word.now power.now) n start result }
{
    let mut count = put(start, 0, set, list);
    let mut i = 0;
    // The list grows while it is followed, so there is no range to go over.
    while i < count {
        let x = list[i] as usize;
        if !finds_all(word, power, n, x) {
            return false;
        }
        count = put_targets(word, next, power, n, x, count, set, list);
        i += 1;
    }
    true
}

// The words of all places that recordings reach from the place start find their way.
fn follow(word: &[u8; 2048], next: &[u8; 2048], power: &[u8; 4096], n: usize, start: usize) -> bool
    requires { (start < 2048) × (n ≤ 16) }
    ensures answer { Followed (pair_after word.now next.now power.now)
        (finds_at word.now power.now) n start result }
{
    let mut set = [false; 2048];
    let mut list = [0u16; 2048];
    follow_from(word, next, power, n, start, &mut set, &mut list)
}

// Every recording under the table, followed from the constraint start, always finds a next state.
pub fn obeys(t: Table) -> bool
    requires { Followable t }
    ensures answer { result ≡ obeys (code_in t) }
{
    let n = chains::ways(t.p);
    let word = t.word;
    let next = t.next;
    let power = t.constraint.power_codes(t.q);
    follow(&word, &next, &power, n, t.start)
}
