// The edges of a table, chained by word, so that the edges with one word are found without a search.
ghost use Rattle.std.specs.Prelude.{◌≡◌, true, ◌≤◌, ◌<◌, IfSome};
ghost use Rattle.table.specs.Edges.{is_edge, word_of, bears, last_below, places, Linked};
ghost use Rattle.table.specs.Lent.{edges_in};
ghost use Rattle.table.specs.Chains.{after};

use crate::chains::wide;
use crate::lent::Edges;

// The edges with their chains: in `head` for each word one more than its last edge, and in `link` for each edge one
// more than the edge before it with the same word; 0 for none.
#[derive(Drop)]
pub struct Chains<'a> {
    pub edges: Edges<'a>,
    pub head: [u16; 256],
    pub link: [u16; 2048],
    pub ghost linked: { Linked (edges_in edges) head link },
}

impl<'a> Chains<'a> {
    // The chains of all edges. It becomes part of its callers, so that the two arrays are made where they are used.
    #[inline(always)]
    pub fn of(edges: Edges<'a>) -> Chains<'a>
        ensures answer { edges_in result.edges ≡ edges_in edges.entry }
    {
        let mut chains = Chains {
            edges: edges,
            head: [0u16; 256],
            link: [0u16; 2048],
        };
        for e in 0..edges.states * 16 {
            if e % 16 < edges.ways {
                let w = wide(edges.word[e]);
                chains.link[e] = chains.head[w];
                chains.head[w] = (e + 1) as u16;
            }
        }
        chains
    }

    // The last edge with the word w.
    pub fn last(&self, w: usize) -> Option<usize>
        requires { w < 256 }
        ensures answer { after result ≡ last_below (edges_in self.now.edges) w (places (edges_in self.now.edges)) }
        ensures edge { IfSome result (λ e. (e < places (edges_in self.now.edges))
            × (bears (edges_in self.now.edges) w e ≡ true)) }
    {
        (self.head[w] as usize).checked_sub(1)
    }

    // The last edge before the edge e with the same word.
    pub fn before(&self, e: usize) -> Option<usize>
        requires inside { e < places (edges_in self.now.edges) }
        requires edge { is_edge (edges_in self.now.edges) e ≡ true }
        ensures answer { after result ≡ last_below (edges_in self.now.edges) (word_of (edges_in self.now.edges) e) e }
        ensures edge { IfSome result (λ d. (d < e)
            × (bears (edges_in self.now.edges) (word_of (edges_in self.now.edges) e) d ≡ true)) }
    {
        (self.link[e] as usize).checked_sub(1)
    }
}
