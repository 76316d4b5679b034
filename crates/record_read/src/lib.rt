// A record's bytes read, with the refusals of its fields.
#![tactic(auto)]

ghost use Rattle.std.specs.Prelude.{◌≡◌, T, IfOk};
ghost use Rattle.table.specs.Value.{ready};
ghost use Rattle.record.specs.Checks.{fields_checked, outcome_in};

use answer::Refusal;
use record::{columns, numbers};
use table::Table;

mod ranges;

// The table that a record's bytes hold, with every check of a record but 9 and 10: "8 below five", "header by 7, 8, the
// rest by 7".
pub fn read(bytes: &[u8]) -> Result<Table, Refusal>
    ensures answer { outcome_in result ≡ fields_checked bytes.now }
    ensures kept { IfOk result (λ t. T (ready t)) }
{
    if bytes.len() < 5 {
        return Err(Refusal::Length);
    }
    let f = numbers::front_of(bytes);
    if !numbers::good_front(f) {
        return Err(Refusal::Field); // with the header, before 8
    }
    if bytes.len() != numbers::size_of(f) {
        return Err(Refusal::Length);
    }
    if !ranges::good_rest(bytes, f) {
        return Err(Refusal::Field);
    }
    Ok(columns::table_of(bytes, f))
}
