// Words put into bytes, one after the other: a byte is written once, when it is full.
ghost use Rattle.std.specs.Prelude.{◌≡◌, List, ◌++◌, ℕ, ◌+◌, ◌*◌, ◌^◌, ◌≤◌, ◌<◌, length, drop};
ghost use Rattle.laws.specs.Sums.{Below};
ghost use Rattle.bits.specs.Fields.{bits, uniform};
ghost use Rattle.stream_pack.specs.Streams.{limit, stream_size, packed};

use bits::{joined, low_bits};

// The bits of words that fill no byte yet: as many as `count`, the number `held`, for the byte at the place `at`.
#[derive(Clone, Copy)]
pub struct Waiting {
    pub at: usize,
    pub count: usize,
    pub held: usize,
    pub ghost few: { count < 8 },
    pub ghost small: { held < 2 ^ count },
}

// No bit waits, and the first byte is next.
pub const NONE: Waiting = Waiting {
    at: 0,
    count: 0,
    held: 0,
};

impl Waiting {
    ghost use Rattle.std.specs.Prelude.{[]};
    ghost use Rattle.stream_pack.specs.Waiting.{Waits};

    // No bit waits, and the first byte is next.
    pub fn none() -> Waiting
        ensures answer { (lent : List ℕ) → Waits [] result lent lent }
    {
        NONE
    }

    // What waits after one word more. The byte that the word fills is written.
    pub fn put_word(self, q: usize, word: u8, out: &mut [u8]) -> Waiting
        requires { (q ≤ 8) × (word < 2 ^ q) × (self.at * 8 + self.count + q ≤ 8 * length out.old) }
        ensures written { (B lent : List ℕ) → Waits B self lent out.old → Waits (B ++ bits q word) result lent out.new }
    {
        let both = joined(self.held, q, word);
        let count = self.count + q;
        if count < 8 {
            return Waiting {
                at: self.at,
                count,
                held: both,
            };
        }
        let rest = count - 8;
        let at = self.at;
        out[at] = low_bits(both >> rest, 8);
        Waiting {
            at: at + 1,
            count: rest,
            held: low_bits(both, rest) as usize,
        }
    }

    // The bits that wait, with bits 0 after them, in the byte that they begin.
    pub fn put_fill(self, out: &mut [u8])
        requires { self.at * 8 + self.count ≤ 8 * length out.old }
        ensures written { (q : ℕ) (ws lent : List ℕ)
            → Waits (uniform q ws) self lent out.old
            → out.new ≡ packed q ws ++ drop (stream_size q (length ws)) lent }
    {
        if self.count == 0 {
            return;
        }
        let at = self.at;
        out[at] = low_bits(self.held << (8 - self.count), 8);
    }
}

// The stream of the words at the start of the output.
pub fn put_words(q: usize, words: &[u8], out: &mut [u8])
    requires { (q ≤ 8) × (length words.now ≤ limit) × Below (2 ^ q) words.now
        × (stream_size q (length words.now) ≤ length out.old) }
    ensures written { out.new
        ≡ packed q words.now ++ drop (stream_size q (length words.now)) out.old }
{
    let mut waiting = Waiting::none();
    for word in words {
        waiting = waiting.put_word(q, *word, out);
    }
    waiting.put_fill(out);
}
