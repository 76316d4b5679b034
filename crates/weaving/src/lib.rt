// Recordings woven word by word, and unwoven.
#![tactic(auto)]

ghost use Rattle.std.specs.Prelude.{◌≡◌, ◌++◌, map, ◌+◌, ◌*◌, ◌≤◌, ◌<◌, length, take, drop};
ghost use Rattle.laws.specs.Lists.{from};
ghost use Rattle.answer.specs.Outcomes.{verdict_on, answer_of, output_of};
ghost use Rattle.weaving.specs.Weaving.{transposed_at, transposed, good_depth, checked};
ghost use Rattle.weaving.specs.Weaving.{weave_into, unweave_into};
ghost use Rattle.weaving.specs.Spread.{Spread};

use answer::Refusal;

// Element i of list r, of `a` lists of `b` elements each, at place i times a plus r; all other places stay.
fn put_list(words: &[u8], a: usize, b: usize, r: usize, out: &mut [u8])
    requires { (r < a) × (length words.now ≡ a * b) × (a * b ≤ length out.old) }
    ensures written { Spread a b r b words.now out.old out.new }
{
    for i in 0..b {
        out[i * a + r] = words[r * b + i];
    }
}

// The words as `a` lists of `b` elements each, read across, list by list. It is for few long lists.
fn put_lists(words: &[u8], a: usize, b: usize, out: &mut [u8])
    requires { (length words.now ≡ a * b) × (a * b ≤ length out.old) }
    ensures written { out.new ≡ transposed a b words.now ++ drop (a * b) out.old }
{
    for r in 0..a {
        put_list(words, a, b, r, out);
    }
}

// Elements j of `a` lists of `b` elements each, after the j times a places before them.
fn put_column(words: &[u8], a: usize, b: usize, j: usize, out: &mut [u8])
    requires { (j < b) × (length words.now ≡ a * b) × (a * b ≤ length out.old) }
    ensures written { out.new
        ≡ (take (j * a) out.old ++ map (transposed_at a b words.now) (from (j * a) a))
        ++ drop (j * a + a) out.old }
{
    for r in 0..a {
        out[j * a + r] = words[r * b + j];
    }
}

// The words as `a` lists of `b` elements each, read across, column by column. It is for many short lists: `put_lists`
// was tried in its place, and is up to five times slower there, as this is for few long ones.
fn put_columns(words: &[u8], a: usize, b: usize, out: &mut [u8])
    requires { (length words.now ≡ a * b) × (a * b ≤ length out.old) }
    ensures written { out.new ≡ transposed a b words.now ++ drop (a * b) out.old }
{
    for j in 0..b {
        put_column(words, a, b, j, out);
    }
}

// Whether the depth is 2 to 16 and divides the length: 16 otherwise.
#[tactic(auto, unfolding(crate::specs::Weaving::good_depth))]
fn is_good_depth(d: usize, length: usize) -> bool
    ensures answer { result ≡ good_depth d length }
{
    (2..=16).contains(&d) && length % d == 0
}

// The checks of both ways: 16, then 13.
fn check(d: usize, length: usize, room: usize) -> Result<(), Refusal>
    ensures answer { verdict_on result length ≡ checked d length room }
{
    if !is_good_depth(d, length) {
        return Err(Refusal::Depth);
    }
    if room < length {
        return Err(Refusal::ShortOutput); // 13 comes after 16
    }
    Ok(())
}

// The d recordings that stand one after the other in the words, woven, in the output: word j of recording r goes to
// place j times d plus r. Declines with 16, then 13.
pub fn weave(d: usize, words: &[u8], out: &mut [u8]) -> Result<usize, Refusal>
    ensures answer { result ≡ answer_of (weave_into d (length out.old) words.now) }
    ensures written { out.new ≡ output_of (weave_into d (length out.old) words.now) out.old }
{
    check(d, words.len(), out.len())?;
    put_lists(words, d, words.len() / d, out);
    Ok(words.len())
}

// The d recordings that are woven in the words, one after the other, in the output. Declines with 16, then 13.
pub fn unweave(d: usize, words: &[u8], out: &mut [u8]) -> Result<usize, Refusal>
    ensures answer { result ≡ answer_of (unweave_into d (length out.old) words.now) }
    ensures written { out.new
        ≡ output_of (unweave_into d (length out.old) words.now) out.old }
{
    check(d, words.len(), out.len())?;
    put_columns(words, words.len() / d, d, out);
    Ok(words.len())
}
