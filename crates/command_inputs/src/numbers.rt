// Numbers among the arguments. Each answer says which argument it was read from.
ghost use Rattle.std.specs.Prelude.{◌≡◌, ◌≤◌, IfSome};
ghost use Rattle.command_arguments.specs.Parsing.{parsed};
ghost use Rattle.command_inputs.specs.Inputs.{number_of};

use command_arguments::numbers::parse;
use command_arguments::{Action, NumberError};
use command_messages::Host;
use command_messages::arguments::word;
use command_messages::usage::{misused_above, misused_word};

// A number that an argument says, and which argument it is.
#[derive(Clone, Copy)]
pub struct Number {
    pub value: usize,
    pub at: usize,
}

// The number that the word of argument i says, up to `most`, if it says one. It says what is no number, and what is
// above.
fn number_in<R: Host>(rt: &R, a: Action, i: usize, word: &[u8], most: usize) -> Option<Number>
    ensures answer { result ≡ number_of i most (parsed word.now) }
    ensures past { IfSome result (λ n. (n.at ≡ i) × (n.value ≤ most)) }
{
    match parse(word) {
        Ok(value) if value <= most => Some(Number { value, at: i }),
        Ok(_) | Err(NumberError::Above) => {
            misused_above(rt, a, word, most);
            None
        }
        Err(NumberError::Wrong) => {
            misused_word(rt, a, word, b": not a number");
            None
        }
    }
}

// The number that argument i says, up to `most`, if it says one. It says what is no number, and what is above.
pub fn number_at<R: Host>(rt: &R, a: Action, i: usize, most: usize) -> Option<Number>
    ensures answer { IfSome result (λ n. n.at ≡ i) }
    ensures past { IfSome result (λ n. n.value ≤ most) }
{
    let mut said = io::buffer();
    let n = word(rt, i, &mut said);
    number_in(rt, a, i, &said[..n], most)
}
