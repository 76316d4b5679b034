// A job compiled: weights, component, splits, table, data, window, with refusals "3, 4, 5, 6" in this order.
ghost use Rattle.std.specs.Prelude.{◌≡◌, ℕ, ◌≤◌, ◌<◌, IfOk, get_or, take};
ghost use Rattle.compile_weights.specs.PowerTable.{tabled, Powers};
ghost use Rattle.record.specs.Checks.{outcome_in};
ghost use Rattle.compile_component.specs.ComponentParts.{FoundIn};
ghost use Rattle.compile.specs.Compile.{ways, graph_of, weights_of, compile};
ghost use Rattle.compile_job.specs.JobValues.{job_in, JobReady};
ghost use Rattle.window_least.specs.Windowed.{Whole};
ghost use Rattle.compile.specs.Stages.{Begun};

use answer::Refusal;
use compile_component::component_graph::{ComponentAnswer, find_component};
use compile_graph::Graph;
use compile_job::JobValue;
use compile_labels::relabel;
use compile_limits::weigh;
use compile_split::split_graph::split_all;
use compile_table::finish_table::finish_table;
use compile_weights::state_weights::state_weights;
use table::Table;
use table::chains::ways;
use window_least::with_window;

// The weights of a job: those that it brings, or the greatest.
pub fn weights_of(j: JobValue, power: &[u8; 4096], words: usize, n: usize) -> [usize; 16]
    requires { JobReady j × Powers power.now words j.constraint.states
        × (tabled power.now words j.constraint.states ≡ graph_of (job_in j)) × (n ≡ ways (job_in j)) }
    ensures answer { (take j.constraint.states result ≡ weights_of (job_in j))
        × ((s : ℕ) → s < j.constraint.states → get_or result s 0 ≤ 16) }
{
    if j.brings {
        let weight = j.weight;
        return weight;
    }
    state_weights(power, words, j.constraint.states, n, j.cap)
}

// The component of a job, with n ways out of each state to come.
fn component_of(j: JobValue, n: usize) -> ComponentAnswer
    requires { JobReady j × (n ≡ ways (job_in j)) }
    ensures answer { FoundIn (weights_of (job_in j)) (graph_of (job_in j)) result }
{
    let power = j.constraint.power_codes(j.q);
    let words = bits::power(j.q);
    let k = j.constraint.states;
    let v = weights_of(j, &power, words, n);
    find_component(&power, words, k, v)
}

// The component split to the end, and its table with the least window: refusals 5 and 6.
fn split_and_window(j: JobValue, n: usize, g: Graph, start: usize) -> Result<Table, Refusal>
    requires { JobReady j × Begun (job_in j) n g start }
    ensures answer { outcome_in result ≡ compile (job_in j) }
    ensures kept { IfOk result (λ t. Whole t) }
{
    let Some(h) = split_all(g, n) else {
        return Err(Refusal::TooManyEdges);
    };
    let rows = relabel(finish_table(h, n), n);
    let constraint = j.constraint;
    let word = rows.word;
    let next = rows.next;
    with_window(Table {
        p: j.p,
        q: j.q,
        states: rows.states,
        memory: 0,
        lookahead: 0,
        constraint,
        start,
        tail: 0,
        word,
        next,
    })
}

// The component of a job. Compiling it is a call of its own, so that what the two need of the stack is not added up.
pub fn begin(j: JobValue) -> ComponentAnswer
    requires { JobReady j }
    ensures answer { FoundIn (weights_of (job_in j)) (graph_of (job_in j)) result }
{
    component_of(j, ways(j.p))
}

// The table of a job with its component, or the refusal: 3, 4, 5, 6.
pub fn compile(j: JobValue, found: ComponentAnswer) -> Result<Table, Refusal>
    requires { JobReady j × FoundIn (weights_of (job_in j)) (graph_of (job_in j)) found }
    ensures answer { outcome_in result ≡ compile (job_in j) }
    ensures kept { IfOk result (λ t. Whole t) }
{
    weigh(found.total, found.graph.is_none())?;
    split_and_window(j, ways(j.p), found.graph.unwrap(), found.start)
}
