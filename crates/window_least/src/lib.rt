// A table with its least window, or "no window up to 15 and 15".
#![tactic(auto)]

ghost use Rattle.std.specs.Prelude.{◌≡◌, IfOk};
ghost use Rattle.table.specs.Value.{code_in, Ready};
ghost use Rattle.record.specs.Checks.{outcome_in};
ghost use Rattle.window_least.specs.Windowed.{windowed, with_size, Whole};

use answer::Refusal;
use table::Table;
use window_search::least_window;

// The table with memory m and lookahead a.
fn with_size(t: Table, m: usize, a: usize) -> Table
    ensures answer { result ≡ with_size t m a }
{
    Table {
        memory: m,
        lookahead: a,
        ..t
    }
}

// The table with its least window, or refusal 6.
pub fn with_window(t: Table) -> Result<Table, Refusal>
    requires { Ready t }
    ensures answer { outcome_in result ≡ windowed (code_in t) }
    ensures kept { IfOk result (λ u. Whole u) }
{
    match least_window(t) {
        Some(window) => Ok(with_size(t, window.memory, window.lookahead)),
        None => Err(Refusal::NoWindow),
    }
}
