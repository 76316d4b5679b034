// The consecutive run of edges "whose targets' weights sum to a multiple of n".
ghost use Rattle.std.specs.Prelude.{◌≡◌, ℕ, ◌+◌, ◌*◌, ◌≤◌, ◌<◌, length, get_or};
ghost use Rattle.compile_choice.specs.ChoiceParts.{RunTo, FirstRun};

// A run of `count` edges from place `from` on, with the sum of their weights.
#[derive(Clone, Copy)]
pub struct Run {
    pub from: usize,
    pub count: usize,
    pub total: usize,
}

// The shortest run that ends at place j.
fn run_to(weight: &[usize], n: usize, j: usize) -> Option<Run>
    requires { (0 < n) × (j < length weight.now) × (length weight.now ≤ 16)
        × ((i : ℕ) → i < length weight.now → get_or weight.now i 0 ≤ 128) }
    ensures answer { RunTo n weight.now j result }
{
    let mut total = 0;
    for i in 0..j + 1 {
        total += weight[j - i];
        if total % n == 0 {
            return Some(Run {
                from: j - i,
                count: i + 1,
                total,
            });
        }
    }
    None
}

// The run that ends first, and of those the shortest; the run of no edges, if no sum is a multiple of n.
pub fn first_run(weight: &[usize], n: usize) -> Run
    requires { (0 < n) × (length weight.now ≤ 16)
        × ((i : ℕ) → i < length weight.now → get_or weight.now i 0 ≤ 128) }
    ensures answer { FirstRun n weight.now result }
{
    for j in 0..weight.len() {
        if let Some(run) = run_to(weight, n, j) {
            return run;
        }
    }
    Run {
        from: 0,
        count: 0,
        total: 0,
    }
}
