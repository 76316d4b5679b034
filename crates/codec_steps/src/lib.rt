// Sets of states in two machine words, stepped by words along the groups of their edges, forward and back.
#![tactic(auto)]

ghost use Rattle.std.specs.Prelude.{◌≡◌, ◌||◌, ℕ, ◌≤◌, ◌<◌, length};
ghost use Rattle.table.specs.Edges.{Arrays, rows_of};
ghost use Rattle.bitsets.specs.BitSets.{holds, yes_no};
ghost use Rattle.codec_groups.specs.Groups.{source_at, steps_to, leads_into};
ghost use Rattle.codec_groups.specs.Lent.{GroupedBy};
ghost use Rattle.codec_steps.specs.StateSets.{along, along_all, back, able};

pub mod members;

use bitsets::BitSet;
use codec_groups::groups::Groups;
use codec_groups::targets_at;

// The set with the states to which group k leads, where its state is in `set`.
fn step_group(groups: &Groups, set: BitSet, k: usize, out: BitSet) -> BitSet
    requires { (k < 2048) × (source_at groups.now.first.now k < 128) × (k < length groups.now.sets.now) }
    ensures answer { (u : ℕ) → holds result u
        ≡ (holds out u || steps_to groups.now.first.now groups.now.sets.now set u k) }
{
    if set.has(groups.source(k)) {
        return out.join(targets_at(groups.sets, k));
    }
    out
}

// The states reachable by the word w from a state of the set.
fn step_by(groups: &Groups, set: BitSet, w: u8) -> BitSet
    ensures answer { (t : Arrays) → GroupedBy t groups.now
        → yes_no t.states result ≡ along (rows_of t) (yes_no t.states set) w }
{
    let mut out = BitSet::none();
    for k in groups.start[w as usize] as usize..groups.start[w as usize + 1] as usize {
        out = step_group(groups, set, k, out);
    }
    out
}

// The set with the state of group k, where the group leads into `set`.
fn back_group(groups: &Groups, set: BitSet, k: usize, out: BitSet) -> BitSet
    requires { (k < 2048) × (source_at groups.now.first.now k < 128) × (k < length groups.now.sets.now) }
    ensures answer { (s : ℕ) → holds result s
        ≡ (holds out s || leads_into groups.now.first.now groups.now.sets.now set s k) }
{
    let leads = targets_at(groups.sets, k).meets(set);
    out.with_if(groups.source(k), leads)
}

// The states from which the word w leads into the set. One function with a closure for the turn would be no plainer
// than `step_by` and this one: only the call in the loop differs.
fn back_by(groups: &Groups, set: BitSet, w: u8) -> BitSet
    ensures answer { (t : Arrays) → GroupedBy t groups.now
        → yes_no t.states result ≡ back (rows_of t) (yes_no t.states set) w }
{
    let mut out = BitSet::none();
    for k in groups.start[w as usize] as usize..groups.start[w as usize + 1] as usize {
        out = back_group(groups, set, k, out);
    }
    out
}

// The states reachable by the words from a state of the set.
pub fn step_all(groups: &Groups, set: BitSet, words: &[u8]) -> BitSet
    ensures answer { (t : Arrays) → GroupedBy t groups.now
        → yes_no t.states result ≡ along_all (rows_of t) (yes_no t.states set) words.now }
{
    let mut reached = set;
    for word in words {
        reached = step_by(groups, reached, *word);
    }
    reached
}

// The states that can read the words.
pub fn readers(groups: &Groups, words: &[u8]) -> BitSet
    ensures answer { (t : Arrays) → GroupedBy t groups.now
        → yes_no t.states result ≡ able (rows_of t) words.now }
{
    let mut able = BitSet::every(128);
    for j in (0..words.len()).rev() {
        able = back_by(groups, able, words[j]);
    }
    able
}
