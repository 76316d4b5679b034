// What a call answers: a finished result, or one of the numbered refusals of documents 01 and 02.
#![tactic(auto)]

ghost use Rattle.std.specs.Prelude.{◌≡◌};
ghost use Rattle.answer.specs.Refusals.{number_of, place_of};
ghost use Rattle.answer.specs.Answers.{answer_number, answer_value};

pub mod bytes;

// Why a call declines, with a case for each number of document 01's table, and after them those of document 02.
#[derive(Clone, Copy)]
pub enum Refusal {
    // 1: p, q or cap out of range.
    Parameters,
    // 2: K, a next state, or d and k out of range.
    States,
    // 3: all weights are 0, so there is no code.
    NoCode,
    // 4: the component's weights sum to over 128.
    TooHeavy,
    // 5: the graph in work has over 2,048 edges.
    TooManyEdges,
    // 6: no window up to 15 and 15.
    NoWindow,
    // 7: a record's field out of range, an absent state that is not 0, or a fill that is not 0.
    Field,
    // 8: the length is not what the fields say, or too short for them.
    Length,
    // 9: some recording breaks the constraint.
    Disobeys,
    // 10: the window fails.
    WindowFails,
    // 11: a block of 2^p or more, or a word of 2^q or more, with its place counted from 0.
    BadByte(usize),
    // 12: fewer than a words.
    TooFewWords,
    // 13: the output that was lent is too short.
    ShortOutput,
    // 14: two constraints give more than 16 pairs of states.
    TooManyPairs,
    // 15: a stream of more than 1,000,000 words, one with another number of bytes than its words take, or a fill that
    // is not 0.
    Stream,
    // 16: recordings to be woven or unwoven whose depth is not 2 to 16, or does not divide their words.
    Depth,
    // 17: weights that come with a job and are over cap, all 0, or short of the inequality at a state.
    BadWeights,
}

impl Refusal {
    // The number of the refusal.
    pub fn number(self) -> u64
        ensures answer { result ≡ number_of self }
    {
        match self {
            Refusal::Parameters => 1,
            Refusal::States => 2,
            Refusal::NoCode => 3,
            Refusal::TooHeavy => 4,
            Refusal::TooManyEdges => 5,
            Refusal::NoWindow => 6,
            Refusal::Field => 7,
            Refusal::Length => 8,
            Refusal::Disobeys => 9,
            Refusal::WindowFails => 10,
            Refusal::BadByte(_) => 11,
            Refusal::TooFewWords => 12,
            Refusal::ShortOutput => 13,
            Refusal::TooManyPairs => 14,
            Refusal::Stream => 15,
            Refusal::Depth => 16,
            Refusal::BadWeights => 17,
        }
    }

    // The place that the refusal names: of the first bad byte for 11, and 0 for the others.
    pub fn place(self) -> usize
        ensures answer { result ≡ place_of self }
    {
        if let Refusal::BadByte(place) = self {
            place
        } else {
            0
        }
    }
}

// The number of an answer: 0 for a result, otherwise its refusal's.
pub fn answer_number(answer: Result<usize, Refusal>) -> u64
    ensures answer { result ≡ answer_number answer }
{
    match answer {
        Ok(_) => 0,
        Err(refusal) => refusal.number(),
    }
}

// The value of an answer: the bytes written for a result, otherwise the place that its refusal names.
pub fn answer_value(answer: Result<usize, Refusal>) -> usize
    ensures answer { result ≡ answer_value answer }
{
    match answer {
        Ok(count) => count,
        Err(refusal) => refusal.place(),
    }
}
