// Weights that come with a job, read after its bytes.
ghost use Rattle.std.specs.Prelude.{◌≡◌, ◌+◌, ◌≤◌, length, take, drop};
ghost use Rattle.constraint.specs.Value.{constraint_of};
ghost use Rattle.compile_job.specs.Jobs.{bringing, held_with};
ghost use Rattle.compile_job.specs.JobValues.{job_in, Sized};

use crate::JobValue;
use constraint::Constraint;

// `count` weights after the first `start` bytes.
fn weights_at(bytes: &[u8], start: usize, count: usize) -> [usize; 16]
    requires { (count ≤ 16) × (start ≤ 36) × (start + count ≡ length bytes.now) }
    ensures answer { take count result ≡ drop start bytes.now }
{
    let mut weight = [0usize; 16];
    for s in 0..count {
        weight[s] = bytes[start + s] as usize;
    }
    weight
}

// The job with these numbers and with the weights after the first `size` bytes, where there are any.
pub fn bring(bytes: &[u8], size: usize, p: usize, q: usize, cap: usize, c: Constraint) -> JobValue
    requires { (c.states ≤ 16) × (size ≤ 36) × Sized size c.states (length bytes.now) }
    ensures answer { job_in result ≡ held_with p q cap (constraint_of c) (bringing size bytes.now) }
{
    let count = c.states;
    if bytes.len() == size {
        return JobValue {
            p,
            q,
            cap,
            constraint: c,
            brings: false,
            weight: [0usize; 16],
        };
    }
    let weight = weights_at(bytes, size, count);
    JobValue {
        p,
        q,
        cap,
        constraint: c,
        brings: true,
        weight,
    }
}
