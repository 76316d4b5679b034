// Whether the weights that come with a job pass.
ghost use Rattle.std.specs.Prelude.{◌≡◌};
ghost use Rattle.compile_job.specs.Jobs.{fit};
ghost use Rattle.compile_job.specs.JobValues.{job_in, Held};

use crate::JobValue;
use compile_weights::brought::weights_pass;
use table::chains::ways;

// Whether the weights that come with a job pass, where there are any.
pub fn passes(j: JobValue) -> bool
    requires { Held (job_in j) }
    ensures answer { result ≡ fit (job_in j) (job_in j).choice }
{
    if !j.brings {
        return true;
    }
    let power = j.constraint.power_codes(j.q);
    let words = bits::power(j.q);
    let weight = j.weight;
    weights_pass(&power, words, j.constraint.states, ways(j.p), j.cap, weight)
}
