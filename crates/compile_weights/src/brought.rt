// Weights that are brought: "at most cap, not all 0, and meet the inequality at each state", and where they fail.
ghost use Rattle.std.specs.Prelude.{◌≡◌, ℕ, ◌*◌, ◌≤◌, ◌<◌, IfSome, length, get_or, take};
ghost use Rattle.std.specs.Option.{unwrap_or};
ghost use Rattle.laws.specs.Lists.{any, first, range};
ghost use Rattle.compile_graph.specs.Weights.{weighty, passing};
ghost use Rattle.compile_weights.specs.PowerTable.{tabled, Powers};
ghost use Rattle.compile_weights.specs.Failures.{over, unmet_by};

use crate::state_weights::{lower_weight, word_counts};

// The first of k states whose weight is over cap.
pub fn first_over(v: [usize; 16], k: usize, cap: usize) -> Option<usize>
    requires { k ≤ 16 }
    ensures answer { unwrap_or result k ≡ first (over cap v) k (range k) }
    ensures there { IfSome result (λ s. s < k) }
{
    for s in 0..k {
        if cap < v[s] {
            return Some(s);
        }
    }
    None
}

// Whether one of the first k weights is above 0.
pub fn is_some(v: [usize; 16], k: usize) -> bool
    requires { k ≤ 16 }
    ensures answer { result ≡ any (weighty v) (range k) }
{
    for s in 0..k {
        if 0 < v[s] {
            return true;
        }
    }
    false
}

// The first of k states at which the inequality fails: it fails exactly where a round lowers the weight.
pub fn first_unmet(count: &[usize; 256], v: [usize; 16], k: usize, n: usize) -> Option<usize>
    requires { (length count.now ≡ 256) × (k ≤ 16) × (0 < n)
        × ((x : ℕ) → x < k * 16 → get_or count.now x 0 ≤ 256) × ((t : ℕ) → t < k → get_or v t 0 ≤ 16) }
    ensures answer { unwrap_or result k ≡ first (unmet_by count.now v k n) k (range k) }
    ensures there { IfSome result (λ s. s < k) }
{
    for s in 0..k {
        if lower_weight(count, v, k, s, n) < v[s] {
            return Some(s);
        }
    }
    None
}

// Whether the first k weights pass.
pub fn weights_pass(
    power: &[u8; 4096],
    words: usize,
    k: usize,
    n: usize,
    cap: usize,
    v: [usize; 16],
) -> bool
    requires { Powers power.now words k × (0 < n) × (cap ≤ 16) }
    ensures answer { result ≡ passing n cap (tabled power.now words k) (take k v) }
{
    if first_over(v, k, cap).is_some() {
        return false;
    }
    if !is_some(v, k) {
        return false;
    }
    let count = word_counts(power, words, k);
    first_unmet(&count, v, k, n).is_none()
}
