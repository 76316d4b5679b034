// Decoding under a table: "From W words come W − a blocks", each by the reading rule.
#![tactic(auto)]

ghost use Rattle.std.specs.Prelude.{◌≡◌, map, ◌+◌, ◌*◌, ◌≤◌, length};
ghost use Rattle.laws.specs.Lists.{range};
ghost use Rattle.answer.specs.Outcomes.{verdict_on, answer_of, output_of};
ghost use Rattle.table.specs.Rows.{Code};
ghost use Rattle.table.specs.Edges.{rows_of};
ghost use Rattle.table.specs.Lent.{edges_in};
ghost use Rattle.codec_steps.specs.Reading.{block, decode};
ghost use Rattle.codec_steps.specs.BlockParts.{under};
ghost use Rattle.codec.specs.Answers.{decoded};
ghost use Rattle.codec.specs.With.{decoded_with};

use answer::Refusal;
use answer::bytes::check_below;
use bitsets::BitSet;
use codec_blocks::read_blocks;
use codec_groups::groups::GroupedEdges;
use table::Table;
use table::lent::Edges;

// The first blocks of the words, as many as the output has room for, by the groups of the edges, whose sets are kept in
// N places: no more is cleared than the table and the words ask for.
fn read_with<const N: usize>(edges: Edges, words: &[u8], m: usize, a: usize, out: &mut [u8])
    requires { (length out.old + a ≤ length words.now) × (edges.states * 16 ≤ N) × (N ≤ 2304) }
    ensures written { out.new ≡ map (block (under (rows_of (edges_in edges.entry)) m a) words.now)
        (range (length out.old)) }
{
    let mut start = [0u16; 257];
    let mut first = [0u16; 2048];
    let mut sets = [BitSet { low: 0, high: 0 }; N];
    let grouped = GroupedEdges::of(edges, &mut start, &mut first, &mut sets);
    read_blocks(&grouped, words, 0, m, a, out.len(), out);
}

// The same in FEW places for fewer than 128 blocks, and otherwise in MANY.
fn read_any<const FEW: usize, const MANY: usize>(
    edges: Edges,
    words: &[u8],
    m: usize,
    a: usize,
    out: &mut [u8],
)
    requires { (length out.old + a ≤ length words.now) × (edges.states * 16 ≤ FEW) × (FEW ≤ 2304)
        × (edges.states * 16 ≤ MANY) × (MANY ≤ 2304) }
    ensures written { out.new ≡ map (block (under (rows_of (edges_in edges.entry)) m a) words.now)
        (range (length out.old)) }
{
    if out.len() < 128 {
        read_with::<FEW>(edges, words, m, a, out);
    } else {
        read_with::<MANY>(edges, words, m, a, out);
    }
}

// Whether words of q bits, of which a are looked at ahead, are decoded with so much room: 12, 13, 11.
fn check_words(q: usize, a: usize, words: &[u8], room: usize) -> Result<(), Refusal>
    requires { q ≤ 8 }
    ensures answer { (c : Code) → c.q ≡ q → c.window.lookahead ≡ a
        → decoded c room words.now ≡ verdict_on result (decode c words.now) }
{
    if words.len() < a {
        return Err(Refusal::TooFewWords);
    }
    let count = words.len() - a;
    if room < count {
        return Err(Refusal::ShortOutput);
    }
    check_below(words, bits::power(q))
}

// The blocks of the words under a table, in the output; sets are kept in FEW places for fewer than 128 blocks, and
// otherwise in MANY. Declines with 7 for a value of the struct that no record gives, then 12, 13, 11. It is built once
// for each two numbers of places and stays apart from its callers, so that a small table does not take the stack that
// the sets of a large one need.
#[inline(never)]
fn decode_in<const FEW: usize, const MANY: usize>(
    t: &Table,
    words: &[u8],
    out: &mut [u8],
) -> Result<usize, Refusal>
    requires { (t.now.states ≤ 128 → (t.now.states * 16 ≤ FEW) × (t.now.states * 16 ≤ MANY))
        × (FEW ≤ 2304) × (MANY ≤ 2304) }
    ensures answer { result ≡ answer_of (decoded_with t.now (length out.old) words.now) }
    ensures written { out.new
        ≡ output_of (decoded_with t.now (length out.old) words.now) out.old }
{
    if !t.is_ready() {
        return Err(Refusal::Field);
    }
    let a = t.lookahead;
    check_words(t.q, a, words, out.len())?;
    let k = words.len() - a;
    read_any::<FEW, MANY>(Edges::of(t), words, t.memory, a, &mut out[..k]);
    Ok(k)
}

// The blocks of the words under a table of at most 16 states, in the output. Declines with 7 for a value of the struct
// that no record gives, then 12, 13, 11. What it calls is built apart from what the one for any table calls, so that
// it takes little stack.
pub fn decode_few(t: Table, words: &[u8], out: &mut [u8]) -> Result<usize, Refusal>
    requires { t.states ≤ 16 }
    ensures answer { result ≡ answer_of (decoded_with t (length out.old) words.now) }
    ensures written { out.new
        ≡ output_of (decoded_with t (length out.old) words.now) out.old }
{
    decode_in::<256, 256>(&t, words, out)
}

// The same under a table of any size. Keeping the states by word, after the sets of all groups, pays from some hundred
// blocks on.
pub fn decode_many(t: Table, words: &[u8], out: &mut [u8]) -> Result<usize, Refusal>
    ensures answer { result ≡ answer_of (decoded_with t (length out.old) words.now) }
    ensures written { out.new
        ≡ output_of (decoded_with t (length out.old) words.now) out.old }
{
    decode_in::<2048, 2304>(&t, words, out)
}
