// Weights that come with a job and fail: the line of the weights, why they fail, and the refusal.
ghost use Rattle.std.specs.Prelude.{◌≡◌, false};
ghost use Rattle.text.specs.Texts.{Added};
ghost use Rattle.compile_job.specs.Jobs.{fit};
ghost use Rattle.compile_job.specs.JobValues.{job_in, Held};
ghost use Rattle.trace.specs.Traced.{failing};

use answer::Refusal;
use compile_job::JobValue;
use table::chains::ways;
use trace_stages::failures::put_failure;
use trace_stages::put_weights;
use view_refusals::put_refusal_line;

// The lines of a job whose weights fail.
pub fn put_failing(j: JobValue, out: &mut [u8], at: usize) -> usize
    requires { Held (job_in j) × (fit (job_in j) (job_in j).choice ≡ false) }
    ensures written { Added (failing (job_in j)) at out.old out.new result }
{
    let power = j.constraint.power_codes(j.q);
    let words = bits::power(j.q);
    let k = j.constraint.states;
    let v = j.weight;
    let n = ways(j.p);
    let first = put_weights(out, at, v, k);
    let end = put_failure(out, first, &power, words, k, n, j.cap, v);
    put_refusal_line(out, end, Refusal::BadWeights)
}
