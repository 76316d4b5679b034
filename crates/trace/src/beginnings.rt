// What is found of a job before anything is split.
ghost use Rattle.std.specs.Prelude.{◌≡◌, ◌≤◌, ◌<◌, take};
ghost use Rattle.compile_graph.specs.Component.{component_states};
ghost use Rattle.compile_weights.specs.PowerTable.{tabled, Powers};
ghost use Rattle.compile.specs.Compile.{ways};
ghost use Rattle.compile_job.specs.JobValues.{job_in, JobReady};
ghost use Rattle.trace.specs.Beginnings.{FoundOf};

use compile::compiling::weights_of;
use compile_component::component_graph::{ComponentAnswer, find_component};
use compile_job::JobValue;
use compile_reach::reaching::{Members, first_returning, list_members, live_edges, reach_all};
use compile_weights::state_weights::word_counts;

// The weights, the states of the component in the constraint's numbers and how many there are, and the component.
#[derive(Clone, Copy)]
pub struct Beginning {
    pub weight: [usize; 16],
    pub states: [usize; 16],
    pub count: usize,
    pub found: ComponentAnswer,
}

// The states of the component in the constraint's numbers.
fn component_states(power: &[u8; 4096], words: usize, k: usize, v: [usize; 16]) -> Members
    requires { Powers power.now words k × (0 < k) }
    ensures answer { (result.count ≤ 16)
        × (take result.count result.state ≡ component_states (take k v) (tabled power.now words k)) }
{
    let count = word_counts(power, words, k);
    let edge = live_edges(&count, v, k);
    let m = reach_all(&edge, k);
    // Where there is none, no state has a weight, so that the component of any state is empty.
    let s = first_returning(&m, v, k).unwrap_or(0);
    list_members(&m, v, k, s)
}

// The beginning of a job, with n ways out of each state to come.
pub fn begin(j: JobValue, n: usize) -> Beginning
    requires { JobReady j × (n ≡ ways (job_in j)) }
    ensures answer { FoundOf (job_in j) j.constraint.states result }
{
    let power = j.constraint.power_codes(j.q);
    let words = bits::power(j.q);
    let k = j.constraint.states;
    let v = weights_of(j, &power, words, n);
    let list = component_states(&power, words, k, v);
    let found = find_component(&power, words, k, v);
    let states = list.state;
    Beginning {
        weight: v,
        states: states,
        count: list.count,
        found: found,
    }
}
