// The walk through the file, case by case.
ghost use Rattle.std.specs.Prelude.{◌≡◌, ◌<◌, ◌≤◌, true, length};
ghost use Rattle.cases.specs.Placing.{Whole};
ghost use Rattle.vectors.specs.Counting.{Few, Counted, ends_at};

use crate::calls::call;
use crate::say_number;
use cases::{Case, case_at, is_case};
use judging::{is_same, judge};

// The place that the walk reached; how many cases there were, and how many of them differ; and for each kind how many
// cases it has and how many of them differ.
#[derive(Clone, Copy)]
pub struct Tally {
    pub at: usize,
    pub cases: u64,
    pub wrong: u64,
    pub kinds: [u64; 24],
    pub differ: [u64; 24],
}

// Bytes to lend as output, all 165.
fn lent() -> [u8; 65536]
    ensures answer { 65536 ≡ length result }
{
    [165; 65536]
}

// The call of a case, and whether it comes out as the case says.
fn call_agrees(c: Case, first: &[u8], second: &[u8], out: &mut [u8], output: &[u8]) -> bool {
    let a = call(c.kind, first, second, out);
    is_same(a, out, c.refusal, c.value, output)
}

// Whether a case of a known kind comes out as it says.
fn known_agrees(bytes: &[u8], c: Case) -> bool
    requires { Whole bytes.now c }
{
    let mut out = lent();
    let room = c.room;
    call_agrees(
        c,
        &bytes[c.first..c.behind],
        &bytes[c.second..c.told],
        &mut out[..room],
        &bytes[c.output..c.end],
    )
}

// Whether a case comes out as it says. One of a kind that this program does not know never does: the kind is printed.
fn case_agrees<R: Print>(rt: &R, bytes: &[u8], c: Case) -> bool
    requires { Whole bytes.now c }
    ensures known { result ≡ true → c.kind ≤ 17 }
{
    if 17 < c.kind {
        say_number(rt, b"not known to this program: kind ", c.kind as u64);
        return false;
    }
    known_agrees(bytes, c)
}

// The tally with one case more.
fn with_case(t: Tally, c: Case, more: u64) -> Tally
    requires { (c.kind < 24) × (more ≤ 1) × Few t × (t.at < c.end) × (c.end ≤ 1000000) }
    ensures answer { Counted t c more result }
{
    let kind = c.kind;
    let mut r = t;
    r.at = c.end;
    r.cases = t.cases + 1;
    r.wrong = t.wrong + more;
    r.kinds[kind] = t.kinds[kind].wrapping_add(1);
    r.differ[kind] = t.differ[kind].wrapping_add(more);
    r
}

// The tally before the first case.
fn no_case() -> Tally
    ensures answer { Few result × (result.at ≡ 0) }
{
    Tally {
        at: 0,
        cases: 0,
        wrong: 0,
        kinds: [0u64; 24],
        differ: [0u64; 24],
    }
}

// The tally with the case that it has reached.
fn step<R: Print>(rt: &R, bytes: &[u8], t: Tally, c: Case) -> Tally
    requires { (length bytes.now ≤ 1000000) × Whole bytes.now c × Few t × (t.at < c.end) }
    ensures answer { Few result × (result.at ≡ c.end) }
{
    let agrees = case_agrees(rt, bytes, c);
    let more = judge(rt, agrees, t.cases);
    with_case(t, c, more)
}

// The tally of all cases.
pub fn walk<R: Print>(rt: &R, bytes: &[u8]) -> Tally
    requires { length bytes.now ≤ 1000000 }
    ensures past { result.at ≤ length bytes.now }
{
    let mut t = no_case();
    let mut c = case_at(bytes, 0);
    while is_case(bytes, c) {
        t = step(rt, bytes, t, c);
        c = case_at(bytes, t.at);
    }
    t
}

// Whether the file ends at a place, with the kind 0.
pub fn is_end(bytes: &[u8], at: usize) -> bool
    requires { at ≤ length bytes.now }
    ensures answer { result ≡ ends_at at bytes.now }
{
    bytes.len() - at == 1 && bytes[at] == 0
}
