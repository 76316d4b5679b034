// A set stepped by words along the groups of its members, where that is the shorter of two walks.
ghost use Rattle.std.specs.Prelude.{◌≡◌, true, ℕ, ◌≤◌, ◌<◌, T, length};
ghost use Rattle.laws.specs.Lists.{any};
ghost use Rattle.table.specs.Edges.{Arrays, rows_of};
ghost use Rattle.bitsets.specs.BitSets.{holds, members_of, yes_no};
ghost use Rattle.codec_groups.specs.Groups.{group_of, member_to};
ghost use Rattle.codec_groups.specs.Lent.{GroupedBy};
ghost use Rattle.codec_steps.specs.StateSets.{along, along_all};

use crate::step_by;
use bitsets::BitSet;
use codec_groups::groups::Groups;
use codec_groups::{group_of, targets_at};

// The states to which the groups of the members lead, where the groups of the states of `have` stand from `at` on: the
// lowest member first, then the rest.
fn step_members(sets: &[BitSet], at: usize, have: BitSet, members: BitSet) -> BitSet
    requires { (at ≤ 2048)
        × ((s : ℕ) → s < 128 → T (holds members s) → group_of at have s < length sets.now) }
    ensures answer { (u : ℕ) → holds result u ≡ any (member_to sets.now at have u) (members_of members) }
{
    let mut left = members;
    let mut out = BitSet::none();
    while let Some(s) = left.pop() {
        out = out.join(targets_at(sets, group_of(at, have, s)));
    }
    out
}

// Whether it is shorter to walk the members of a set than the groups of their word, which stand from `at` on and below
// `end`: there are more than four groups and more than three for a member, and the set was not that of all states.
pub fn is_shorter(set: BitSet, members: BitSet, at: usize, end: usize) -> bool
    ensures answer { result ≡ true → at < end }
{
    let groups = end.saturating_sub(at);
    4 < groups && set != BitSet::every(128) && 3 * (members.count() as usize) < groups
}

// The states reachable by the word w from a state of the set, by the shorter of two walks.
fn step_shorter(groups: &Groups, set: BitSet, w: u8) -> BitSet
    requires { 2304 ≤ length groups.now.sets.now }
    ensures answer { (t : Arrays) → GroupedBy t groups.now
        → yes_no t.states result ≡ along (rows_of t) (yes_no t.states set) w }
{
    let at = groups.start[w as usize] as usize;
    let end = groups.start[w as usize + 1] as usize;
    let have = targets_at(groups.sets, 2048 + w as usize);
    let members = have.meet(set);
    if is_shorter(set, members, at, end) {
        return step_members(groups.sets, at, have, members);
    }
    step_by(groups, set, w)
}

// The states reachable by the words from a state of the set, each word by the shorter of two walks. It stands beside
// `step_all` since that one asks for no states by word; one function with a closure for the step would be no plainer.
pub fn step_all_shorter(groups: &Groups, set: BitSet, words: &[u8]) -> BitSet
    requires { 2304 ≤ length groups.now.sets.now }
    ensures answer { (t : Arrays) → GroupedBy t groups.now
        → yes_no t.states result ≡ along_all (rows_of t) (yes_no t.states set) words.now }
{
    let mut reached = set;
    for word in words {
        reached = step_shorter(groups, reached, *word);
    }
    reached
}
