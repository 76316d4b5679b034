// Whether a component can be split: the sum of its weights and its edges are looked at, with refusals "3, 4, 5".
#![tactic(auto)]

ghost use Rattle.std.specs.Prelude.{◌≡◌};
ghost use Rattle.answer.specs.Outcomes.{verdict_on};
ghost use Rattle.compile_limits.specs.Weighed.{weighed};

use answer::Refusal;

// What is said of a component by the sum of its weights and whether it has over 2,048 edges.
pub fn weigh(total: usize, crowded: bool) -> Result<(), Refusal>
    ensures answer { verdict_on result total ≡ weighed total crowded }
{
    if total == 0 {
        return Err(Refusal::NoCode);
    }
    if 128 < total {
        return Err(Refusal::TooHeavy);
    }
    if crowded {
        return Err(Refusal::TooManyEdges);
    }
    Ok(())
}
