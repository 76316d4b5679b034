// The past set and the search for the group of a block by the shorter of two walks: that of the members of a set that
// have a word, or that of the groups of the word.
ghost use Rattle.std.specs.Prelude.{◌≡◌, true, ℕ, ◌≤◌, ◌<◌, T, length, unwrap_or, IfSome};
ghost use Rattle.table.specs.Edges.{Arrays, rows_of};
ghost use Rattle.bitsets.specs.BitSets.{holds, yes_no};
ghost use Rattle.codec_groups.specs.Groups.{group_of};
ghost use Rattle.codec_groups.specs.Lent.{GroupedBy};
ghost use Rattle.codec_steps.specs.Reading.{past};
ghost use Rattle.codec_steps.specs.BlockParts.{first_group, first_member, under};

use crate::blocks::{first_group, past_start};
use bitsets::BitSet;
use codec_groups::groups::Groups;
use codec_groups::{group_of, targets_at};
use codec_steps::members::{is_shorter, step_all_shorter};

// Whether it can be shorter to walk members: the table has more than 16 states, and the array has the states by word.
pub fn is_large(states: usize, sets: &[BitSet]) -> bool
    ensures answer { result ≡ true → 2304 ≤ length sets.now }
{
    16 < states && 2304 <= sets.len()
}

// The first group of a member into the set ahead; the groups of the states of `have` stand from `at` on.
fn first_member(
    sets: &[BitSet],
    at: usize,
    have: BitSet,
    members: BitSet,
    ahead: BitSet,
) -> Option<usize>
    requires { (at ≤ 2048) × ((s : ℕ) → s < 128 → T (holds members s)
        → (group_of at have s < length sets.now) × (group_of at have s < 2048)) }
    ensures answer { unwrap_or result 2048 ≡ first_member sets.now at have members ahead }
    ensures below { IfSome result (λ k. k < 2048) }
{
    let mut left = members;
    while let Some(s) = left.pop() {
        let k = group_of(at, have, s);
        if targets_at(sets, k).meets(ahead) {
            return Some(k);
        }
    }
    None
}

// The first group of the word w from the one set into the other.
pub fn first_shorter(groups: &Groups, past: BitSet, w: u8, ahead: BitSet) -> Option<usize>
    requires { 2304 ≤ length groups.now.sets.now }
    ensures answer { unwrap_or result 2048
        ≡ first_group groups.now.start.now groups.now.first.now groups.now.sets.now past w ahead }
    ensures below { IfSome result (λ k. k < 2048) }
    ensures byte { w < 256 }
{
    let at = groups.start[w as usize] as usize;
    let end = groups.start[w as usize + 1] as usize;
    let have = targets_at(groups.sets, 2048 + w as usize);
    let members = have.meet(past);
    if is_shorter(past, members, at, end) {
        return first_member(groups.sets, at, have, members, ahead);
    }
    first_group(groups, past, w, ahead)
}

// The states in which block i may start: reachable by the m words before it, or by all of them from state 0.
pub fn past_shorter(groups: &Groups, words: &[u8], i: usize, m: usize) -> BitSet
    requires { (i ≤ length words.now) × (2304 ≤ length groups.now.sets.now) }
    ensures answer { (t : Arrays) → GroupedBy t groups.now
        → yes_no t.states result ≡ past (under (rows_of t) m 0) words.now i }
{
    step_all_shorter(groups, past_start(i, m), &words[i.saturating_sub(m)..i])
}
