// The groups of a table's edges, lent.
ghost use Rattle.table.specs.Edges.{Arrays};
ghost use Rattle.table.specs.Lent.{edges_in};
ghost use Rattle.codec_groups.specs.Groups.{Grouped};

use crate::laying::lay;
use bitsets::BitSet;
use table::lent::Edges;
use table::linked::Chains;

// The groups of some table's edges: those of the word w stand from start[w] on and below start[w + 1]. A group has its
// first edge and the set of states to which its edges lead; from set 2048 on stand the states by word, if there is
// room.
#[derive(Clone, Copy)]
pub struct Groups<'a> {
    pub start: &'a [u16; 257],
    pub first: &'a [u16; 2048],
    pub sets: &'a [BitSet],
    pub ghost grouped: { ∥ ((t : Arrays) × Grouped t start.now first.now sets.now) ∥₁ },
}

// The edges of a table with their groups.
#[derive(Clone, Copy)]
pub struct GroupedEdges<'a> {
    pub edges: Edges<'a>,
    pub groups: Groups<'a>,
    pub ghost laid: { ∥ Grouped (edges_in edges) groups.start.now groups.first.now groups.sets.now ∥₁ },
}

impl<'a> Groups<'a> {
    ghost use Rattle.std.specs.Prelude.{◌≡◌, ◌<◌};
    ghost use Rattle.codec_groups.specs.Groups.{source_at};

    // The state of group k: that of its first edge.
    pub fn source(&self, k: usize) -> usize
        requires { k < 2048 }
        ensures answer { result ≡ source_at self.now.first.now k }
    {
        self.first[k] as usize / 16
    }
}

impl<'a> GroupedEdges<'a> {
    ghost use Rattle.std.specs.Prelude.{◌≡◌, ◌*◌, ◌≤◌, length};

    // The edges with their groups, which are laid in the arrays. As `Chains::of`, it becomes part of its callers.
    #[inline]
    pub fn of(
        edges: Edges<'a>,
        start: &'a mut [u16; 257],
        first: &'a mut [u16; 2048],
        sets: &'a mut [BitSet],
    ) -> GroupedEdges<'a>
        requires { (length first.old ≡ 2048) × (edges.states * 16 ≤ length sets.old) }
        ensures answer { edges_in result.edges ≡ edges_in edges.entry }
        ensures width { result.edges.q ≡ edges.entry.q }
    {
        let chains = Chains::of(edges);
        lay(&chains, start, first, sets);
        GroupedEdges {
            edges: edges,
            groups: Groups {
                start: start,
                first: first,
                sets: sets,
            },
        }
    }
}
