// The numbers of a run-length job among the arguments, with the weights that may follow them.
ghost use Rattle.std.specs.Prelude.{◌≡◌, ◌≤◌, take, IfSome};
ghost use Rattle.command_inputs.specs.Inputs.{JobFrom, Counted};

use crate::numbers::number_at;
use command_arguments::numbers::parse;
use command_arguments::{Action, NumberError};
use command_messages::Host;
use command_messages::arguments::{argument_count, word};
use command_messages::usage::{misused, misused_weights};
use text::is_same;

// A run-length job that the arguments say, in numbers that a byte holds: the first `size` bytes of `job`, which are five
// numbers and so many weights; and the first of these arguments.
#[derive(Clone, Copy)]
pub struct Numbers {
    pub job: [u8; 21],
    pub size: usize,
    pub weights: usize,
    pub at: usize,
}

// The five numbers that arguments 2 to 6 say, up to 255, if they do. It says what is no number, and what is above.
fn five_said<R: Host>(rt: &R, a: Action) -> Option<Numbers>
    ensures answer { IfSome result (JobFrom 2) }
    ensures past { IfSome result (λ n. n.weights ≡ 0) }
{
    let mut job = [0u8; 21];
    for i in 0..5 {
        let n = number_at(rt, a, 2 + i, 255)?;
        job[i] = n.value as u8;
    }
    Some(Numbers {
        job,
        size: 5,
        weights: 0,
        at: 2,
    })
}

// Five numbers, and after them the weights that as many arguments as there are states say, from argument 8 on, if they
// do. It says what is no number, and what is above.
fn weights_said<R: Host>(rt: &R, a: Action, five: Numbers, states: usize) -> Option<Numbers>
    requires { JobFrom 2 five × (states ≤ 16) }
    ensures answer { IfSome result (JobFrom 2) }
    ensures past { IfSome result (λ n. (n.weights ≡ states) × (take 5 n.job ≡ take 5 five.job)) }
{
    let mut job = five.job;
    for i in 0..states {
        let n = number_at(rt, a, 8 + i, 255)?;
        job[5 + i] = n.value as u8;
    }
    Some(Numbers {
        job,
        size: 5 + states,
        weights: states,
        at: 2,
    })
}

// Whether argument 7 is the word that stands before weights.
fn is_weights<R: Host>(rt: &R) -> bool {
    let mut said = io::buffer();
    let n = word(rt, 7, &mut said);
    is_same(&said[..n], b"weights")
}

// Whether there are more arguments than an action takes that brings no weights: the five numbers, and the name of the
// file written, if it writes one.
fn is_over<R: Host>(rt: &R, a: Action) -> bool {
    let most = if a.shape().written == 0 { 7 } else { 8 };
    most < argument_count(rt)
}

// Whether argument i names the file that an action writes: it writes one, and the argument is no number.
fn is_name<R: Host>(rt: &R, a: Action, i: usize) -> bool {
    if a.shape().written == 0 {
        return false;
    }
    let mut said = io::buffer();
    let n = word(rt, i, &mut said);
    matches!(parse(&said[..n]), Err(NumberError::Wrong))
}

// How many arguments after argument 7 are weights: all of them, but for a last one that names the file written.
fn weights_given<R: Host>(rt: &R, a: Action) -> usize {
    let count = argument_count(rt);
    if count < 9 {
        0
    } else if is_name(rt, a, count - 1) {
        count - 9
    } else {
        count - 8
    }
}

// Five numbers, and the weights after argument 7, if they are as many as states; it says if not. A k over 15 is refused
// by the five numbers alone.
fn weights_after<R: Host>(rt: &R, a: Action, five: Numbers) -> Option<Numbers>
    requires { JobFrom 2 five × (five.weights ≡ 0) }
    ensures answer { IfSome result (JobFrom 2) }
    ensures past { IfSome result Counted }
{
    let k = five.job[1] as usize;
    if 15 < k {
        return Some(five);
    }
    let states = k + 1;
    let given = weights_given(rt, a);
    if given != states {
        misused_weights(rt, a, given, states);
        return None;
    }
    weights_said(rt, a, five, states)
}

// The numbers that arguments 2 to 6 say, up to 255, and where argument 7 is `weights` those after it, one for each
// state, if they do. It says what is no number, what is above, and that there are too few or too many.
pub fn numbers_said<R: Host>(rt: &R, a: Action) -> Option<Numbers>
    ensures answer { IfSome result (JobFrom 2) }
    ensures past { IfSome result Counted }
{
    let brings = is_weights(rt);
    if !brings && is_over(rt, a) {
        misused(rt, a);
        return None;
    }
    let five = five_said(rt, a)?;
    if brings {
        weights_after(rt, a, five)
    } else {
        Some(five)
    }
}
