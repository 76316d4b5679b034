// Whether words are a recording: how many of them, from the first on, come back when their decoded blocks are encoded.
#![tactic(auto)]

ghost use Rattle.std.specs.Prelude.{◌≡◌};
ghost use Rattle.answer.specs.Outcomes.{answer_of};
ghost use Rattle.codec_verify.specs.Counting.{sizes_of};
ghost use Rattle.codec_verify.specs.Verify.{verified_with, verify_under};

use crate::counting::count_all;
use answer::Refusal;
use answer::bytes::check_below;
use record_check::load;
use table::Table;
use table::lent::Edges;

pub mod counting;

// The numbers of a code by which its words are counted beside its edges: the width of a word, the window, and the tail
// datum.
#[derive(Clone, Copy)]
pub struct Sizes {
    pub q: usize,
    pub memory: usize,
    pub lookahead: usize,
    pub tail: usize,
}

// The numbers of a table.
pub fn sizes_of(t: Table) -> Sizes
    ensures answer { result ≡ sizes_of t }
{
    Sizes {
        q: t.q,
        memory: t.memory,
        lookahead: t.lookahead,
        tail: t.tail,
    }
}

// How many words, from the first on, come back under the table. Declines with 7 for a value of the struct that no
// record gives, then 12, 11.
pub fn verify_with(t: Table, words: &[u8]) -> Result<usize, Refusal>
    ensures answer { result ≡ answer_of (verified_with t words.now) }
{
    if !t.is_ready() {
        return Err(Refusal::Field);
    }
    if words.len() < t.lookahead {
        return Err(Refusal::TooFewWords);
    }
    check_below(words, bits::power(t.q))?;
    Ok(count_all(sizes_of(t), Edges::of(&t), words))
}

// How many words, from the first on, come back under the record in the bytes: all of them exactly if the words are a
// recording. Declines with the record's refusal, then 12, 11.
pub fn verify(bytes: &[u8], words: &[u8]) -> Result<usize, Refusal>
    ensures answer { result ≡ answer_of (verify_under bytes.now words.now) }
{
    verify_with(load(bytes)?, words)
}
