// A record with another tail datum, so that recordings under it close with that datum.
#![tactic(auto)]

ghost use Rattle.std.specs.Prelude.{◌≡◌, T, length};
ghost use Rattle.answer.specs.Outcomes.{answer_of, output_of};
ghost use Rattle.table.specs.Value.{code_in, ready};
ghost use Rattle.record_tail.specs.Closing.{closed, closed_with};

use answer::Refusal;
use record_check::load;
use record_write::write;
use table::Table;

// The record of a table with another tail datum, in the output: 7 for a datum of 2^p or more, 13.
fn close(t: Table, datum: usize, out: &mut [u8]) -> Result<usize, Refusal>
    requires { T (ready t) }
    ensures answer { result ≡ answer_of (closed (code_in t) datum (length out.old)) }
    ensures written { out.new ≡ output_of (closed (code_in t) datum (length out.old)) out.old }
{
    let mut u = t;
    u.tail = datum;
    write(u, out)
}

// The record in the bytes with another tail datum, in the output: the record's refusals, 7 for a datum of 2^p or more,
// 13; otherwise how many bytes were written, as many as the record has.
pub fn with_tail(bytes: &[u8], datum: usize, out: &mut [u8]) -> Result<usize, Refusal>
    ensures answer { result ≡ answer_of (closed_with bytes.now datum (length out.old)) }
    ensures written { out.new
        ≡ output_of (closed_with bytes.now datum (length out.old)) out.old }
{
    close(load(bytes)?, datum, out)
}
