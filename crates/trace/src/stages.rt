// All steps of a job: weights, component, splits, table.
ghost use Rattle.std.specs.Prelude.{◌≡◌};
ghost use Rattle.text.specs.Texts.{Added};
ghost use Rattle.compile.specs.Compile.{ways};
ghost use Rattle.compile_job.specs.JobValues.{job_in, JobReady};
ghost use Rattle.trace.specs.Traced.{stages};

use crate::beginnings::begin;
use compile_job::JobValue;
use trace_splits::put_splitting;
use trace_stages::{put_component, put_weights};

// All steps, with n ways out of each state to come.
pub fn put_stages(j: JobValue, out: &mut [u8], at: usize, n: usize) -> usize
    requires { JobReady j × (n ≡ ways (job_in j)) }
    ensures written { Added (stages (job_in j)) at out.old out.new result }
{
    let b = begin(j, n);
    let v = b.weight;
    let states = b.states;
    let found = b.found;
    let first = put_weights(out, at, v, j.constraint.states);
    if found.total == 0 {
        return first;
    }
    let next = put_component(out, first, states, b.count, found.start, found.total);
    if 128 < found.total {
        return next;
    }
    match found.graph {
        None => next,
        Some(g) => put_splitting(out, next, g, n, j.q),
    }
}
