// The cases of a file of test vectors: where the parts of each stand.
#![tactic(auto)]

ghost use Rattle.std.specs.Prelude.{◌≡◌, true, ◌≤◌, ◌<◌};
ghost use Rattle.cases.specs.Placing.{Placed, Whole};

// A case: its kind, the room of its output, where its first input begins and ends (`behind`), where its second input
// begins and ends (`told`), the refusal and the value that it is to answer, and where its output begins and ends.
#[derive(Clone, Copy)]
pub struct Case {
    pub kind: usize,
    pub room: usize,
    pub first: usize,
    pub behind: usize,
    pub second: usize,
    pub told: usize,
    pub refusal: usize,
    pub value: usize,
    pub output: usize,
    pub end: usize,
}

// The byte at a place, 0 where there is none.
fn byte(bytes: &[u8], at: usize) -> usize
    ensures past { result < 256 }
{
    bytes.get(at).map_or(0, |byte| *byte as usize)
}

// The number of two bytes at a place.
fn two(bytes: &[u8], at: usize) -> usize
    requires { at ≤ 2000000 }
    ensures past { result < 65536 }
{
    byte(bytes, at) * 256 + byte(bytes, at + 1)
}

// The case at a place.
pub fn case_at(bytes: &[u8], at: usize) -> Case
    requires { at ≤ 1000000 }
    ensures placed { Placed result × (at < result.end) }
{
    let first = at + 5;
    let behind = first + two(bytes, at + 3);
    let second = behind + 2;
    let told = second + two(bytes, behind);
    let output = told + 7;
    Case {
        kind: byte(bytes, at),
        room: two(bytes, at + 1),
        first,
        behind,
        second,
        told,
        refusal: byte(bytes, told),
        value: two(bytes, told + 1) * 65536 + two(bytes, told + 3),
        output,
        end: output + two(bytes, told + 5),
    }
}

// Whether a case is one that the file has whole; kinds are from 1 to 23.
pub fn is_case(bytes: &[u8], c: Case) -> bool
    requires { Placed c }
    ensures answer { result ≡ true → Whole bytes.now c }
{
    (1..24).contains(&c.kind) && c.end <= bytes.len()
}
