// The listing program: it reads five bytes, a run-length job, and prints the code's listing, or else `refused` and the
// number. Input of any other length is refused with 8.
#![tactic(auto)]

ghost use Rattle.std.specs.Prelude.{◌≡◌, ◌≤◌, length, take};
ghost use Rattle.io.specs.Counts.{IsPrefixLen};
ghost use Rattle.view_job.specs.Listings.{listing_of};

use files::read_full;
use view_job::{list_run_length, tell_refusal};

// What is printed for a job's bytes, at the start of the output, which is longer than every listing; the answer is
// its length.
fn list(job: &[u8], out: &mut [u8]) -> usize
    requires { 43028 ≤ length out.old }
    ensures written { take result out.new ≡ listing_of job.now }
    ensures past { IsPrefixLen result out.new }
{
    match list_run_length(job, out) {
        Ok(size) => size,
        Err(r) => answer::answer_value(tell_refusal(r, out)),
    }
}

fn main(rt: HostRuntime) {
    let mut bytes = [0u8; 6];
    let mut input = rt.reader();
    let n = read_full(&mut input, &mut bytes);
    let mut out = io::large_buffer();
    let size = list(&bytes[..n], &mut out);
    let _ = rt.write_all(&out[..size]);
}
