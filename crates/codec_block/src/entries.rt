// The entries of one state: the first with a word into a set.
ghost use Rattle.std.specs.Prelude.{◌≡◌, ℕ, ◌≤◌, ◌<◌, get_or, unwrap_or, IfSome};
ghost use Rattle.codec_steps.specs.BlockParts.{enters_at, first_into};

use bitsets::BitSet;
use table::chains::wide;

// The entry at place e has the word w and leads into the set.
fn enters(word: &[u8; 2048], next: &[u8; 2048], w: u8, ahead: BitSet, e: usize) -> bool
    requires { (e < 2048) × (get_or next.now e 0 < 128) }
    ensures answer { result ≡ enters_at word.now next.now w ahead e }
{
    word[e] == w && ahead.has(wide(next[e]))
}

// The first entry with the word w into the set, of those from place e on and below `end`.
pub fn first_into(
    word: &[u8; 2048],
    next: &[u8; 2048],
    w: u8,
    ahead: BitSet,
    e: usize,
    end: usize,
) -> Option<usize>
    requires { (end ≤ 2048) × ((j : ℕ) → e ≤ j → j < end → get_or next.now j 0 < 128) }
    ensures answer { unwrap_or result 2048 ≡ first_into word.now next.now w ahead e end }
    ensures below { IfSome result (λ j. j < 2048) }
{
    for j in e..end {
        if enters(word, next, w, ahead, j) {
            return Some(j);
        }
    }
    None
}
