// The part of a table that its paths use, lent.
ghost use Rattle.std.specs.Prelude.{ℕ, ◌*◌, ◌%◌, ◌^◌, ◌≤◌, ◌<◌, get_or};
ghost use Rattle.table.specs.Edges.{borrowed, Fits};

use crate::Table;
use crate::chains::ways;

// The edges of so many states, as many a state as there are data, with words of q bits. The edge of state s that
// carries datum d has its word and its next state at s * 16 + d.
#[derive(Clone, Copy)]
pub struct Edges<'a> {
    pub states: usize,
    pub ways: usize,
    pub q: usize,
    pub word: &'a [u8; 2048],
    pub next: &'a [u8; 2048],
    pub ghost fits: { Fits (borrowed states ways word next) },
    pub ghost narrow: { q ≤ 8 },
    pub ghost reading: { (e : ℕ) → e < states * 16 → e % 16 < ways → get_or word.now e 0 < 2 ^ q },
}

// What the type of the words says of each.
fn are_bytes(word: [u8; 2048])
    ensures answer { (e : ℕ) → get_or word e 0 < 256 }
{}

impl<'a> Edges<'a> {
    ghost use Rattle.std.specs.Prelude.{◌≡◌};
    ghost use Rattle.table.specs.Value.{Ready};
    ghost use Rattle.table.specs.Edges.{lent};
    ghost use Rattle.table.specs.Lent.{edges_in};

    // The edges of a table.
    pub fn of(t: &'a Table) -> Edges<'a>
        requires { Ready t.now }
        ensures answer { edges_in result ≡ lent t.now }
        ensures width { result.q ≡ t.now.q }
    {
        Edges {
            states: t.states,
            ways: ways(t.p),
            q: t.q,
            word: &t.word,
            next: &t.next,
        }
    }

    // The edges in any arrays that fit: their words are bytes, so of 8 bits.
    pub fn from_arrays(
        states: usize,
        ways: usize,
        word: &'a [u8; 2048],
        next: &'a [u8; 2048],
    ) -> Edges<'a>
        requires { Fits (borrowed states ways word next) }
        ensures answer { edges_in result ≡ borrowed states ways word.entry next.entry }
        ensures width { result.q ≡ 8 }
    {
        are_bytes(*word);
        Edges {
            states,
            ways,
            q: 8,
            word,
            next,
        }
    }
}
