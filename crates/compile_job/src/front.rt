// The front of a job: p, q and cap.
ghost use Rattle.std.specs.Prelude.{◌≡◌};
ghost use Rattle.answer.specs.Outcomes.{done, verdict_on};
ghost use Rattle.compile_job.specs.Jobs.{good_parameters, fronted};

use crate::rules::between;
use answer::Refusal;

// Whether p, q and cap are in range: otherwise refusal 1.
pub fn good_parameters(p: usize, q: usize, cap: usize) -> bool
    ensures answer { result ≡ good_parameters p q cap }
{
    between(p, 1, 4) && between(q, 1, 8) && between(cap, 1, 16)
}

// The front of a job that holds p, q and cap: "8 below four bytes, 1".
pub fn front_verdict(bytes: &[u8]) -> Result<(), Refusal>
    ensures answer { verdict_on result bytes.now ≡ fronted bytes.now (done bytes.now) }
{
    if bytes.len() < 4 {
        return Err(Refusal::Length);
    }
    if !good_parameters(bytes[0] as usize, bytes[1] as usize, bytes[2] as usize) {
        return Err(Refusal::Parameters);
    }
    Ok(())
}
