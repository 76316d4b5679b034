// Pairs of a table state and a constraint state, one edge on, and the list of those that are still to be followed. The
// pair of table state s and constraint state k has the place s * 16 + k. Set, list and its length stay apart, and no
// struct with an invariant holds them: `Queue` gives each member its place, and an invariant may have one proof only.
#![tactic(auto)]

ghost use Rattle.std.specs.Prelude.{◌≡◌, ◌≤◌, ◌<◌};
ghost use Rattle.laws.specs.Lists.{range, all};
ghost use Rattle.record_queue.specs.Places.{state_after, pair_after, finds_at, Queue, Grown};

use table::chains::wide;

// The constraint state to which datum d leads from the pair at x, 255 for none: a number, as a constraint's bytes and
// the definition `none` have it.
fn state_after(word: &[u8; 2048], power: &[u8; 4096], x: usize, d: usize) -> usize
    requires { (x < 2048) × (d < 16) }
    ensures answer { (result ≡ state_after word.now power.now x d) × (result < 256) }
{
    wide(power[x % 16 * 256 + wide(word[x / 16 * 16 + d])])
}

// The place to which datum d carries the pair at x, 2048 for none: a number, as the definition `pair_after` has it.
fn pair_after(word: &[u8; 2048], next: &[u8; 2048], power: &[u8; 4096], x: usize, d: usize) -> usize
    requires { (x < 2048) × (d < 16) }
    ensures answer { result ≡ pair_after word.now next.now power.now x d }
{
    let k = state_after(word, power, x, d);
    if k == 255 {
        2048
    } else {
        wide(next[x / 16 * 16 + d]) * 16 + k
    }
}

// The place y put into the set and at the end of the list, unless it is there; the length of the list.
pub fn put(y: usize, m: usize, set: &mut [bool; 2048], list: &mut [u16; 2048]) -> usize
    requires { Queue set.old list.old m }
    ensures written { Grown (λ d. y) 1 set.old list.old m set.new
        list.new result }
{
    if y >= 2048 || set[y] {
        return m;
    }
    set[y] = true;
    list[m] = y as u16;
    m + 1
}

// The places to which the n edges of the pair at x carry it, put into the set and the list.
pub fn put_targets(
    word: &[u8; 2048],
    next: &[u8; 2048],
    power: &[u8; 4096],
    n: usize,
    x: usize,
    m: usize,
    set: &mut [bool; 2048],
    list: &mut [u16; 2048],
) -> usize
    requires { (x < 2048) × (n ≤ 16) × Queue set.old list.old m }
    ensures written { Grown (pair_after word.now next.now power.now x) n
        set.old list.old m set.new list.new result }
{
    let mut count = m;
    for d in 0..n {
        let y = pair_after(word, next, power, x, d);
        count = put(y, count, set, list);
    }
    count
}

// The words of the n edges of the pair at x all find their way.
pub fn finds_all(word: &[u8; 2048], power: &[u8; 4096], n: usize, x: usize) -> bool
    requires { (x < 2048) × (n ≤ 16) }
    ensures answer { result ≡ all (finds_at word.now power.now x) (range n) }
{
    (0..n).all(|d| state_after(word, power, x, d) != 255)
}
