// The words of one part of a stream that come back.
ghost use Rattle.std.specs.Prelude.{◌≡◌, List, ℕ, ◌+◌, ◌*◌, ◌-◌, ◌≤◌, ◌<◌, length, get_or};
ghost use Rattle.codec_groups.specs.Lent.{lent_edges};
ghost use Rattle.codec_verify.specs.Counting.{due_in};
ghost use Rattle.stream_verify.specs.Parts.{read_by, Held, Reaches};

use codec_blocks::block_at;
use codec_groups::groups::GroupedEdges;
use codec_verify::Sizes;
use table::chains::wide;

// A part of the `count` words of a stream: those from word `from` on and below `end`, unpacked from word `base` on,
// with the state in which word `from` starts.
#[derive(Clone, Copy)]
pub struct Part {
    pub base: usize,
    pub count: usize,
    pub state: usize,
    pub from: usize,
    pub end: usize,
}

// The state and the place to which words come back.
#[derive(Clone, Copy)]
pub struct Reached {
    pub state: usize,
    pub place: usize,
}

// Datum j of those whose words the stream should have, from the words of a part: block j, and the tail datum after the
// last block.
fn datum_in(k: Sizes, grouped: &GroupedEdges, words: &[u8], part: Part, j: usize) -> usize
    requires { ((U : List ℕ) × Held (read_by (lent_edges grouped.now) k) U words.now part)
        × (k.lookahead ≤ part.count) × (part.from ≤ j) × (j < part.end) × (part.end ≤ part.count) }
    ensures answer { (U : List ℕ) → Held (read_by (lent_edges grouped.now) k) U words.now part
        → result ≡ get_or (due_in (lent_edges grouped.now) k U) j 0 }
{
    if part.count - k.lookahead <= j {
        return k.tail;
    }
    wide(block_at(grouped, words, j - part.base, k.memory, k.lookahead))
}

// How far the words of a part come back.
pub fn count_in(k: Sizes, grouped: &GroupedEdges, words: &[u8], part: Part) -> Reached
    requires { ((U : List ℕ) × Held (read_by (lent_edges grouped.now) k) U words.now part)
        × (k.lookahead ≤ part.count) × (part.from ≤ part.end) × (part.end ≤ part.count)
        × (part.state < grouped.now.edges.states) }
    ensures answer { (U : List ℕ) → Held (read_by (lent_edges grouped.now) k) U words.now part
        → Reaches (lent_edges grouped.now)
        (due_in (lent_edges grouped.now) k U) U part result }
{
    let edges = grouped.edges;
    let mut state = part.state;
    for place in part.from..part.end {
        let d = datum_in(k, grouped, words, part, place);
        if edges.ways <= d {
            return Reached { state, place };
        }
        let e = state * 16 + d;
        if edges.word[e] != words[place - part.base] {
            return Reached { state, place };
        }
        state = edges.next[e] as usize;
    }
    Reached {
        state,
        place: part.end,
    }
}
