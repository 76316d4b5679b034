// An answer as one number of 64 bits, for calls that answer a number.
#![tactic(auto)]

ghost use Rattle.std.specs.Prelude.{◌≡◌, ℕ, ◌≤◌, min};
ghost use Rattle.answer.specs.Refusals.{most};
ghost use Rattle.word.specs.Words.{held, joined, word_of};

use answer::Refusal;

// A value, held to 2^56 - 1.
fn hold(value: usize) -> u64
    ensures answer { result ≡ held value }
{
    value.min(72057594037927935) as u64
}

// A number times 2^56 plus a value. The premise holds of every answer.
pub fn join(number: u64, value: usize) -> u64
    requires { number ≤ most }
    ensures answer { result ≡ joined number value }
{
    number * 72057594037927936 + hold(value)
}

// An answer as one number: the refusal's number times 2^56 plus the value.
pub fn word(a: Result<usize, Refusal>) -> u64
    ensures answer { result ≡ word_of a }
{
    join(answer::answer_number(a), answer::answer_value(a))
}
