// A text as the result of a call.
ghost use Rattle.std.specs.Prelude.{◌≡◌, length};
ghost use Rattle.answer.specs.Outcomes.{fitting, answer_of, output_of};

use answer::Refusal;

// The text fills the output from its first byte, or refusal 13.
pub fn fill(out: &mut [u8], text: &[u8]) -> Result<usize, Refusal>
    ensures answer { result ≡ answer_of (fitting (length out.old) text.now) }
    ensures written { out.new
        ≡ output_of (fitting (length out.old) text.now) out.old }
{
    if out.len() < text.len() {
        return Err(Refusal::ShortOutput);
    }
    out[..text.len()].copy_from_slice(text);
    Ok(text.len())
}
