// The split that the rule asks for next, before it is taken.
ghost use Rattle.compile_graph.specs.Value.{work_in};
ghost use Rattle.trace_splits.specs.ChoiceParts.{Ripe, ChosenIn};

use compile_choice::choose::{candidate_keys, choose, greatest_weight};
use compile_choice::find_run::{Run, first_run};
use compile_graph::Graph;
use compile_order::keys::{Keys, key_weights};

// The state to split and its weight, the weight that it keeps, the number of the new state, and the run of keys of the
// edges that it keeps.
#[derive(Clone, Copy)]
pub struct Choice {
    pub state: usize,
    pub weight: usize,
    pub share: usize,
    pub fresh: usize,
    pub run: Run,
    pub keys: Keys,
}

// The choice of the rule.
pub fn next_choice(g: Graph, n: usize) -> Choice
    requires { Ripe n g }
    ensures answer { ChosenIn n (work_in g) result }
{
    let m = greatest_weight(g);
    let s = choose(g, m);
    let keys = candidate_keys(g, s, m, n);
    let weights = key_weights(g, keys.as_slice());
    let run = first_run(weights.as_slice(), n);
    Choice {
        state: s,
        weight: m as usize,
        share: run.total / n,
        fresh: g.states,
        run,
        keys,
    }
}
