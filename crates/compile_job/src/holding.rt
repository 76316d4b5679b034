// Jobs with one constraint, read from bytes with their refusals, the weights that come with them not yet checked.
ghost use Rattle.std.specs.Prelude.{◌≡◌, ◌||◌, ◌+◌, ◌≤◌, eqb, IfOk, length};
ghost use Rattle.compile_job.specs.Jobs.{held_job, held_run_length};
ghost use Rattle.compile_job.specs.JobValues.{job_in, job_outcome, Held};

use crate::JobValue;
use crate::bringing::bring;
use crate::front::{front_verdict, good_parameters};
use crate::rules::{between, read_constraint};
use answer::Refusal;
use constraint::Constraint;

// The job that bytes hold, its weights not yet checked, or the refusal: "8 below four bytes, 1, K by 2, 8, next states
// by 2".
pub fn hold_job(bytes: &[u8]) -> Result<JobValue, Refusal>
    ensures answer { job_outcome result ≡ held_job bytes.now }
    ensures kept { IfOk result (λ j. Held (job_in j)) }
{
    front_verdict(bytes)?;
    let c = read_constraint(&bytes[3..], true, true)?;
    let size = 4 + 2 * c.states;
    Ok(bring(
        bytes,
        size,
        bytes[0] as usize,
        bytes[1] as usize,
        bytes[2] as usize,
        c,
    ))
}

// Whether there are `size` bytes, or one more for each state.
fn is_counted(size: usize, states: usize, count: usize) -> bool
    requires { (size ≤ 5) × (states ≤ 16) }
    ensures answer { result ≡ (eqb count size || eqb count (size + states)) }
{
    count == size || count == size + states
}

// The job that the bytes d, k, p, q, cap hold, its weights not yet checked, or the refusal: "8 below five bytes, 1, 2,
// 8 for a length other than 5 or 5 + K".
pub fn hold_run_length(bytes: &[u8]) -> Result<JobValue, Refusal>
    ensures answer { job_outcome result ≡ held_run_length bytes.now }
    ensures kept { IfOk result (λ j. Held (job_in j)) }
{
    if bytes.len() < 5 {
        return Err(Refusal::Length);
    }
    let p = bytes[2] as usize;
    let q = bytes[3] as usize;
    let cap = bytes[4] as usize;
    if !good_parameters(p, q, cap) {
        return Err(Refusal::Parameters);
    }
    let d = bytes[0] as usize;
    let k = bytes[1] as usize;
    if !between(k, d, 15) {
        return Err(Refusal::States);
    }
    if !is_counted(5, k + 1, bytes.len()) {
        return Err(Refusal::Length);
    }
    Ok(bring(bytes, 5, p, q, cap, Constraint::run_length(d, k)))
}
