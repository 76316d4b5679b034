// One block by the reading rule: the past set, the states that can read the words ahead, and the datum of the first
// edge between them, or the mark that says where there is none.
ghost use Rattle.std.specs.Prelude.{◌≡◌, ℕ, ◌+◌, ◌≤◌, ◌<◌, eqb, ltb, length, get_or, unwrap_or, IfSome};
ghost use Rattle.table.specs.Edges.{Arrays, rows_of};
ghost use Rattle.bitsets.specs.BitSets.{holds, yes_no};
ghost use Rattle.codec_groups.specs.Groups.{source_at, between};
ghost use Rattle.codec_groups.specs.Lent.{GroupedBy, lent_edges};
ghost use Rattle.codec_steps.specs.Reading.{readings, mark_for, past, block};
ghost use Rattle.codec_steps.specs.BlockParts.{joins_at, first_group, holds_from, under};

use crate::entries::first_into;
use crate::shorter::{first_shorter, is_large, past_shorter};
use bitsets::BitSet;
use codec_groups::groups::{GroupedEdges, Groups};
use codec_groups::targets_at;
use codec_steps::{readers, step_all};

// Group k leads from a state of the one set into the other.
fn joins(groups: &Groups, past: BitSet, ahead: BitSet, k: usize) -> bool
    requires { (k < 2048) × (source_at groups.now.first.now k < 128) × (k < length groups.now.sets.now) }
    ensures answer { result ≡ joins_at groups.now.first.now groups.now.sets.now past ahead k }
{
    past.has(groups.source(k)) && targets_at(groups.sets, k).meets(ahead)
}

// The first group of the word w from the one set into the other.
pub fn first_group(groups: &Groups, past: BitSet, w: u8, ahead: BitSet) -> Option<usize>
    ensures answer { unwrap_or result 2048
        ≡ first_group groups.now.start.now groups.now.first.now groups.now.sets.now past w ahead }
    ensures below { IfSome result (λ k. k < 2048) }
    ensures byte { w < 256 }
{
    for k in groups.start[w as usize] as usize..groups.start[w as usize + 1] as usize {
        if joins(groups, past, ahead, k) {
            return Some(k);
        }
    }
    None
}

// A group of the word w is that of a state of the set.
fn has_word(groups: &Groups, set: BitSet, w: u8) -> bool
    ensures answer { result ≡ between (holds_from groups.now.first.now set) (get_or groups.now.start.now w 0)
        (get_or groups.now.start.now (w + 1) 0) }
{
    for k in groups.start[w as usize] as usize..groups.start[w as usize + 1] as usize {
        if set.has(groups.source(k)) {
            return true;
        }
    }
    false
}

// The mark of a block that no edge reads: 255 where an edge with the word w leaves the past set, and 254 where none
// does.
fn mark_for(groups: &Groups, past: BitSet, w: u8) -> u8
    ensures answer { (t : Arrays) → GroupedBy t groups.now
        → result ≡ mark_for (rows_of t) (yes_no t.states past) w }
{
    if has_word(groups, past, w) { 255 } else { 254 }
}

// The states from which a window of memory m starts at block i: all, or state 0 where fewer words were before.
pub fn past_start(i: usize, m: usize) -> BitSet
    ensures answer { (i < m → (s : ℕ) → holds result s ≡ eqb 0 s) × (m ≤ i → (s : ℕ) → holds result s ≡ ltb s 128) }
{
    if i < m {
        BitSet::none().with(0)
    } else {
        BitSet::every(128)
    }
}

// The states in which block i may start: reachable by the m words before it, or by all of them from state 0.
fn past_set(groups: &Groups, words: &[u8], i: usize, m: usize) -> BitSet
    requires { i ≤ length words.now }
    ensures answer { (t : Arrays) → GroupedBy t groups.now
        → yes_no t.states result ≡ past (under (rows_of t) m 0) words.now i }
{
    step_all(groups, past_start(i, m), &words[i.saturating_sub(m)..i])
}

// The datum of the first edge with the word w in the group, the first from the past set into the set ahead, or the mark
// where there is none.
fn told(grouped: &GroupedEdges, past: BitSet, w: u8, ahead: BitSet, group: Option<usize>) -> u8
    requires { (unwrap_or group 2048 ≡ first_group grouped.now.groups.start.now grouped.now.groups.first.now
        grouped.now.groups.sets.now past w ahead) × IfSome group (λ k. k < 2048) }
    ensures answer { result ≡ get_or (readings (rows_of (lent_edges grouped.now))
        (yes_no grouped.now.edges.states past) w (yes_no grouped.now.edges.states ahead)) 0
        (mark_for (rows_of (lent_edges grouped.now)) (yes_no grouped.now.edges.states past) w) }
{
    let edges = grouped.edges;
    if let Some(k) = group {
        let e = grouped.groups.first[k] as usize;
        let end = e / 16 * 16 + edges.ways;
        if let Some(first) = first_into(edges.word, edges.next, w, ahead, e, end) {
            return (first % 16) as u8;
        }
    }
    mark_for(&grouped.groups, past, w)
}

// Block i of the words, in a window of memory m and lookahead a.
pub fn read_block(grouped: &GroupedEdges, words: &[u8], i: usize, m: usize, a: usize) -> u8
    requires { i + a < length words.now }
    ensures answer { result ≡ block (under (rows_of (lent_edges grouped.now)) m a) words.now i }
{
    let groups = &grouped.groups;
    let w = words[i];
    if m == 0 {
        let all = past_start(i, 0);
        let able = readers(groups, &words[i + 1..i + 1 + a]);
        return told(grouped, all, w, able, first_group(groups, all, w, able));
    }
    if is_large(grouped.edges.states, groups.sets) {
        let near = past_shorter(groups, words, i, m);
        let far = readers(groups, &words[i + 1..i + 1 + a]);
        return told(grouped, near, w, far, first_shorter(groups, near, w, far));
    }
    let past = past_set(groups, words, i, m);
    let ahead = readers(groups, &words[i + 1..i + 1 + a]);
    told(grouped, past, w, ahead, first_group(groups, past, w, ahead))
}
