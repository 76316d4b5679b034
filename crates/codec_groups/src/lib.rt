// The groups of a table's edges by word: for each word the states that have it, in rising order, each with its first
// edge and with the set of states to which its edges lead.
#![tactic(auto)]

ghost use Rattle.std.specs.Prelude.{◌≡◌, ◌≤◌, ◌<◌, length};
ghost use Rattle.codec_groups.specs.Groups.{targets_at, Put, PutHave, group_of};

use bitsets::BitSet;

pub mod groups;
pub mod laying;

// The states to which the edges of group k lead.
pub fn targets_at(sets: &[BitSet], k: usize) -> BitSet
    requires { k < length sets.now }
    ensures answer { result ≡ targets_at sets.now k }
{
    sets[k]
}

// Group k written: its first edge e, and the states to which its edges lead.
pub fn put_group(k: usize, e: usize, targets: BitSet, first: &mut [u16; 2048], sets: &mut [BitSet])
    requires { (k < 2048) × (e < 2048) × (length first.old ≡ 2048) × (k < length sets.old) }
    ensures written { Put first.old sets.old k e targets first.new sets.new }
{
    first[k] = e as u16;
    sets[k] = targets;
}

// The states that have the word w written after the sets of the groups, where the array is long enough.
pub fn put_have(w: usize, have: BitSet, sets: &mut [BitSet])
    requires { w < 256 }
    ensures written { PutHave sets.old w have sets.new }
{
    if 2304 <= sets.len() {
        sets[2048 + w] = have;
    }
}

// The group of the state s, where those of the states of `have` stand from `at` on: as many after the first as states
// of the set are below s.
pub fn group_of(at: usize, have: BitSet, s: usize) -> usize
    requires { (at ≤ 2048) × (s < 128) }
    ensures answer { result ≡ group_of at have s }
{
    at + have.meet(BitSet::every(s)).count() as usize
}
