// From bytes to text: a run-length job listed, and a refusal told.
#![tactic(auto)]

ghost use Rattle.std.specs.Prelude.{◌≡◌, length};
ghost use Rattle.answer.specs.Outcomes.{fitting, answer_of, output_of};
ghost use Rattle.compile_job.specs.JobValues.{job_in, JobReady};
ghost use Rattle.view_job.specs.Listings.{refusal, list_into, listed_into};

use answer::Refusal;
use compile::compiling::{begin, compile};
use compile_job::JobValue;
use compile_job::reading::read_listed;
use text::put_line;
use view_listing::filling::fill;
use view_listing::listing::list;

// The listing of a job in the output.
fn list_into(j: JobValue, out: &mut [u8]) -> Result<usize, Refusal>
    requires { JobReady j }
    ensures answer { result ≡ answer_of (listed_into (length out.old) (job_in j)) }
    ensures written { out.new ≡ output_of (listed_into (length out.old) (job_in j)) out.old }
{
    list(compile(j, begin(j))?, out)
}

// The listing of the run-length job that bytes hold, in the output.
pub fn list_run_length(job: &[u8], out: &mut [u8]) -> Result<usize, Refusal>
    ensures answer { result ≡ answer_of (list_into job.now (length out.old)) }
    ensures written { out.new ≡ output_of (list_into job.now (length out.old)) out.old }
{
    list_into(read_listed(job)?, out)
}

// `refused` and the number of the refusal in the output, or refusal 13.
pub fn tell_refusal(r: Refusal, out: &mut [u8]) -> Result<usize, Refusal>
    ensures answer { result ≡ answer_of (fitting (length out.old) (refusal r)) }
    ensures written { out.new ≡ output_of (fitting (length out.old) (refusal r)) out.old }
{
    let n = r.number();
    let mut line = [0u8; 29];
    let end = put_line(&mut line, 0, b"refused ", n);
    fill(out, &line[..end])
}
