// Jobs of all kinds, read from bytes with their refusals.
ghost use Rattle.std.specs.Prelude.{◌≡◌, ◌≤◌, IfOk, length};
ghost use Rattle.constraint.specs.Walking.{Lawful};
ghost use Rattle.constraint.specs.Value.{constraint_of};
ghost use Rattle.compile_job.specs.Jobs.{read_job, read_run_length, read_listed, read_joined, fitted, job_with};
ghost use Rattle.compile_job.specs.Jobs.{joined_job};
ghost use Rattle.compile_job.specs.JobValues.{job_in, job_outcome, Held, JobReady};

use crate::JobValue;
use crate::fitting::passes;
use crate::front::front_verdict;
use crate::holding::{hold_job, hold_run_length};
use crate::rules::read_constraint;
use answer::Refusal;
use constraint::Constraint;
use joining::join;

// The job, or 17 for weights that fail.
fn fit_read(j: JobValue) -> Result<JobValue, Refusal>
    requires { Held (job_in j) }
    ensures answer { job_outcome result ≡ fitted (job_in j) }
    ensures kept { IfOk result (λ k. JobReady k) }
{
    if !passes(j) {
        return Err(Refusal::BadWeights);
    }
    Ok(j)
}

// The job that bytes hold, or the refusal: "8 below four bytes, 1, K by 2, 8, next states by 2", 17.
pub fn read_job(bytes: &[u8]) -> Result<JobValue, Refusal>
    ensures answer { job_outcome result ≡ read_job bytes.now }
    ensures kept { IfOk result (λ j. JobReady j) }
{
    fit_read(hold_job(bytes)?)
}

// The run-length job that bytes hold, or the refusal: "8 below five bytes, 1, 2, 8 for a length other than 5 or 5 + K",
// 17.
pub fn read_run_length(bytes: &[u8]) -> Result<JobValue, Refusal>
    ensures answer { job_outcome result ≡ read_run_length bytes.now }
    ensures kept { IfOk result (λ j. JobReady j) }
{
    fit_read(hold_run_length(bytes)?)
}

// The run-length job of a listing, which takes no weights: any length but five is refused first.
pub fn read_listed(bytes: &[u8]) -> Result<JobValue, Refusal>
    ensures answer { job_outcome result ≡ read_listed bytes.now }
    ensures kept { IfOk result (λ j. JobReady j) }
{
    if bytes.len() != 5 {
        return Err(Refusal::Length);
    }
    read_run_length(bytes)
}

// The job with p, q and cap at the start of its bytes.
fn job_with(bytes: &[u8], c: Constraint) -> JobValue
    requires { 4 ≤ length bytes.now }
    ensures answer { job_in result ≡ job_with bytes.now (constraint_of c) }
{
    JobValue {
        p: bytes[0] as usize,
        q: bytes[1] as usize,
        cap: bytes[2] as usize,
        constraint: c,
        brings: false,
        weight: [0usize; 16],
    }
}

// The job of two lawful constraints, or 14.
fn join_job(bytes: &[u8], c: Constraint, d: Constraint) -> Result<JobValue, Refusal>
    requires { (4 ≤ length bytes.now) × Lawful (constraint_of c) × Lawful (constraint_of d) }
    ensures answer { job_outcome result ≡ joined_job bytes.now (constraint_of c) (constraint_of d) }
{
    match join(c, d) {
        None => Err(Refusal::TooManyPairs),
        Some(both) => Ok(job_with(bytes, both)),
    }
}

// The job of two constraints that bytes hold, or the refusal: "8 below four bytes, 1, then for each constraint 8 for a
// missing K, K by 2, 8, next states by 2", and 14.
pub fn read_joined(bytes: &[u8]) -> Result<JobValue, Refusal>
    ensures answer { job_outcome result ≡ read_joined bytes.now }
    ensures kept { IfOk result (λ j. JobReady j) }
{
    front_verdict(bytes)?;
    let c = read_constraint(&bytes[3..], false, false)?;
    let start = 4 + 2 * c.states;
    let d = read_constraint(&bytes[start..], true, false)?;
    join_job(bytes, c, d)
}
