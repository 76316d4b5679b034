// The checker: a record loaded with every check, those of its fields and the two of its table.
#![tactic(auto)]

ghost use Rattle.std.specs.Prelude.{◌≡◌, T, IfOk};
ghost use Rattle.answer.specs.Outcomes.{answer_of};
ghost use Rattle.table.specs.Value.{code_in, ready};
ghost use Rattle.record.specs.Checks.{outcome_in};
ghost use Rattle.record_check.specs.Parse.{judged, parse, checked_only};

use answer::Refusal;
use record_read::read;
use table::Table;

// The two checks of a table whose fields are in range: 9, 10.
fn judge(t: Table) -> Result<Table, Refusal>
    requires { T (ready t) }
    ensures answer { outcome_in result ≡ judged (code_in t) }
    ensures kept { IfOk result (λ u. T (ready u)) }
{
    if !record_obeys::obeys(t) {
        return Err(Refusal::Disobeys);
    }
    if !window_test::works(t, t.memory, t.lookahead) {
        return Err(Refusal::WindowFails);
    }
    Ok(t)
}

// The table that a record's bytes hold, or the refusal: 8 below five bytes, "header by 7, 8, the rest by 7, 9, 10".
pub fn load(bytes: &[u8]) -> Result<Table, Refusal>
    ensures answer { outcome_in result ≡ parse bytes.now }
    ensures kept { IfOk result (λ t. T (ready t)) }
{
    judge(read(bytes)?)
}

// Whether a record is accepted: done with no byte written, or the refusal.
pub fn check(bytes: &[u8]) -> Result<usize, Refusal>
    ensures answer { result ≡ answer_of (checked_only bytes.now) }
{
    load(bytes)?;
    Ok(0)
}
