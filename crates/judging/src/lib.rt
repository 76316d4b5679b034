// Whether a call came out as a case says; a case that differs is printed.
#![tactic(auto)]

ghost use Rattle.std.specs.Prelude.{◌≡◌, true, ◌≤◌, get_or};
ghost use Rattle.judging.specs.Comparing.{Stands, Same, differs};

use text::Writer;

// Every byte of an output as it is lent.
const LENT: u8 = 165;

// What a call came to: the number of its answer and its value.
#[derive(Clone, Copy)]
pub struct Told {
    pub number: u64,
    pub value: usize,
}

// The byte that is to stand at place i of the output: that of the expected output, and after it 165, as lent.
fn expected(output: &[u8], i: usize) -> u8
    ensures answer { result ≡ get_or output.now i 165 }
{
    if i < output.len() { output[i] } else { LENT }
}

// Whether the expected output stands at the start, and every byte past it is as lent.
fn stands(out: &[u8], output: &[u8]) -> bool
    ensures answer { result ≡ true → Stands out.now output.now }
{
    if out.len() < output.len() {
        return false;
    }
    for i in 0..out.len() {
        if out[i] != expected(output, i) {
            return false;
        }
    }
    true
}

// Whether a call came to this refusal and this value, and left this output.
pub fn is_same(a: Told, out: &[u8], refusal: usize, value: usize, output: &[u8]) -> bool
    ensures answer { result ≡ true → Same a out.now refusal value output.now }
{
    a.number as usize == refusal && a.value == value && stands(out, output)
}

// A name and a number on a line.
fn say_number<R: Print>(rt: &R, name: &[u8], n: u64) {
    let mut out = [0u8; 128];
    let mut writer = Writer::new(&mut out, 0);
    writer.line(name, n);
    let size = writer.at;
    let _ = rt.write_all(&out[..size]);
}

// 1 for a case that differs, whose number is printed, 0 for one that does not.
pub fn judge<R: Print>(rt: &R, agrees: bool, number: u64) -> u64
    ensures answer { result ≡ differs agrees }
    ensures small { result ≤ 1 }
{
    if agrees {
        return 0;
    }
    say_number(rt, b"differs: case ", number);
    1
}
