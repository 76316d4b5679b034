// The walk of a set: whether all its records are good, and otherwise which is the first bad one.
#![tactic(auto)]

ghost use Rattle.std.specs.Prelude.{◌≡◌};
ghost use Rattle.set_check.specs.Sets.{read_set};
ghost use Rattle.set_check.specs.Results.{set_answer, set_number, set_value, step_at};

use answer::Refusal;
use record_check::check;
use set_places::place_at;

// The first bad record of a set: its number, counted from 0, and its refusal.
#[derive(Clone, Copy)]
pub struct BadRecord {
    pub number: usize,
    pub refusal: Refusal,
}

// One step of the walk, over the record whose length stands at an offset: where that record ends, if it is good.
fn step_at(set: &[u8], at: usize) -> Result<usize, Refusal>
    ensures answer { result ≡ step_at set.now at }
{
    match place_at(set, at) {
        None => Err(Refusal::Length),
        Some(place) => {
            let end = place.start + place.len;
            check(&set[place.start..end])?;
            Ok(end)
        }
    }
}

// Whether a set is good: 8 with number 0 for no bytes at all; then, record by record, 8 if its length or bytes are cut
// off, else the record's own checks; last 8, with the count as number, for bytes left over.
pub fn check_set(set: &[u8]) -> Result<usize, BadRecord>
    ensures answer { result ≡ set_answer (read_set set.now) }
{
    if set.len() == 0 {
        return Err(BadRecord {
            number: 0,
            refusal: Refusal::Length,
        });
    }
    let count = set[0] as usize;
    let mut at = 1;
    for number in 0..count {
        match step_at(set, at) {
            Err(refusal) => return Err(BadRecord { number, refusal }),
            Ok(end) => at = end,
        }
    }
    if at < set.len() {
        return Err(BadRecord {
            number: count,
            refusal: Refusal::Length,
        });
    }
    Ok(count)
}

// The number of a set's answer: 0 for a good set, otherwise its refusal's.
pub fn set_number(a: Result<usize, BadRecord>) -> u64
    ensures answer { result ≡ set_number a }
{
    match a {
        Ok(_) => 0,
        Err(bad) => bad.refusal.number(),
    }
}

// The value of a set's answer: how many records a good set has, otherwise the number of the first bad one.
pub fn set_value(a: Result<usize, BadRecord>) -> usize
    ensures answer { result ≡ set_value a }
{
    match a {
        Ok(count) => count,
        Err(bad) => bad.number,
    }
}
