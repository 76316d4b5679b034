// The last line of a trace: the window, or the refusal.
ghost use Rattle.text.specs.Texts.{Added};
ghost use Rattle.record.specs.Checks.{outcome_in};
ghost use Rattle.trace.specs.Traced.{ending};

use answer::Refusal;
use sentences::put_sentence;
use table::Table;
use view_refusals::put_refusal_line;

// What compiling came to.
pub fn put_ending(r: Result<Table, Refusal>, out: &mut [u8], at: usize) -> usize
    ensures written { Added (ending (outcome_in r)) at out.old out.new result }
{
    match r {
        Err(x) => put_refusal_line(out, at, x),
        Ok(t) => put_sentence(
            out,
            at,
            b"window of memory # and lookahead #\n",
            &[t.memory, t.lookahead],
        ),
    }
}
