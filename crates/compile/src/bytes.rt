// From bytes to bytes: a job compiled to its record.
ghost use Rattle.std.specs.Prelude.{◌≡◌, length};
ghost use Rattle.answer.specs.Outcomes.{answer_of, output_of};
ghost use Rattle.compile.specs.Compile.{compile_into, compile_job, compile_run_length, compile_joined};
ghost use Rattle.compile_job.specs.JobValues.{job_in, JobReady};

use crate::compiling::{begin, compile};
use answer::Refusal;
use compile_job::JobValue;
use compile_job::reading::{read_job, read_joined, read_run_length};
use record_write::write;

// The record of a job in the output.
fn compile_into(j: JobValue, out: &mut [u8]) -> Result<usize, Refusal>
    requires { JobReady j }
    ensures answer { result ≡ answer_of (compile_into (length out.old) (job_in j)) }
    ensures written { out.new ≡ output_of (compile_into (length out.old) (job_in j)) out.old }
{
    write(compile(j, begin(j))?, out)
}

// The record of the job that bytes hold, in the output: "8 below four bytes, 1, K by 2, 8, next states by 2, 3, 4, 5,
// 6, 13".
pub fn compile_job(job: &[u8], out: &mut [u8]) -> Result<usize, Refusal>
    ensures answer { result ≡ answer_of (compile_job job.now (length out.old)) }
    ensures written { out.new ≡ output_of (compile_job job.now (length out.old)) out.old }
{
    compile_into(read_job(job)?, out)
}

// The record of the run-length job that bytes hold, in the output: "8, 1, 2, then from 3 on".
pub fn compile_run_length(job: &[u8], out: &mut [u8]) -> Result<usize, Refusal>
    ensures answer { result ≡ answer_of (compile_run_length job.now (length out.old)) }
    ensures written { out.new
        ≡ output_of (compile_run_length job.now (length out.old)) out.old }
{
    compile_into(read_run_length(job)?, out)
}

// The record of the job with two constraints that bytes hold, in the output: "8 below four bytes, 1, then for each
// constraint 8 for a missing K, K by 2, 8, next states by 2", 14, "3, 4, 5, 6, 13".
pub fn compile_joined(job: &[u8], out: &mut [u8]) -> Result<usize, Refusal>
    ensures answer { result ≡ answer_of (compile_joined job.now (length out.old)) }
    ensures written { out.new
        ≡ output_of (compile_joined job.now (length out.old)) out.old }
{
    compile_into(read_joined(job)?, out)
}
