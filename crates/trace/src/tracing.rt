// The trace of a job: its weights, its component, each split, the table and the window, or the refusal where it comes.
ghost use Rattle.std.specs.Prelude.{IfOk};
ghost use Rattle.text.specs.Texts.{Added};
ghost use Rattle.answer.specs.Outcomes.{done};
ghost use Rattle.compile_job.specs.JobValues.{job_in, job_outcome, Held};
ghost use Rattle.trace.specs.Traced.{tracing, traced_job, traced_run_length};

use crate::endings::put_ending;
use crate::failures::put_failing;
use crate::stages::put_stages;
use answer::Refusal;
use compile::compiling::{begin, compile};
use compile_job::JobValue;
use compile_job::fitting::passes;
use compile_job::holding::{hold_job, hold_run_length};
use table::chains::ways;
use view_refusals::put_refusal_line;

// The steps of a job, and then what compiling it comes to; or why the weights that come with it fail.
fn trace_held(j: JobValue, out: &mut [u8], at: usize) -> usize
    requires { Held (job_in j) }
    ensures written { Added (tracing (done (job_in j))) at out.old out.new result }
{
    if passes(j) {
        let end = put_stages(j, out, at, ways(j.p));
        return put_ending(compile(j, begin(j)), out, end);
    }
    put_failing(j, out, at)
}

// The trace of a job that bytes hold, or the refusal.
fn trace(r: Result<JobValue, Refusal>, out: &mut [u8], at: usize) -> usize
    requires { IfOk r (λ j. Held (job_in j)) }
    ensures written { Added (tracing (job_outcome r)) at out.old out.new result }
{
    match r {
        Err(x) => put_refusal_line(out, at, x),
        Ok(j) => trace_held(j, out, at),
    }
}

// The trace of the job that bytes hold, put after the first `at` bytes; the answer is the place after it.
pub fn trace_job(job: &[u8], out: &mut [u8], at: usize) -> usize
    ensures written { Added (traced_job job.now) at out.old out.new result }
{
    trace(hold_job(job), out, at)
}

// The trace of the run-length job that bytes hold, put after the first `at` bytes; the answer is the place after it.
pub fn trace_run_length(job: &[u8], out: &mut [u8], at: usize) -> usize
    ensures written { Added (traced_run_length job.now) at out.old out.new result }
{
    trace(hold_run_length(job), out, at)
}
