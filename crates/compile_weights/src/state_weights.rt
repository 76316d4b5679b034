// "Weights." The words from each state to each are counted once; each round replaces all weights together.
ghost use Rattle.std.specs.Prelude.{◌≡◌, ℕ, ◌+◌, ◌*◌, ◌/◌, ◌%◌, ◌≤◌, ◌<◌, length, get_or, take};
ghost use Rattle.compile_graph.specs.Weights.{weights};
ghost use Rattle.compile_weights.specs.PowerTable.{tabled, Powers, word_count, sum_by, lower_by};

// How many words lead from s to t.
fn words_between(power: &[u8; 4096], words: usize, s: usize, t: u8) -> usize
    requires { (length power.now ≡ 4096) × (words ≤ 256) × (s < 16) }
    ensures answer { (result ≡ word_count power.now words s t) × (result ≤ words) }
{
    let mut count = 0;
    for w in 0..words {
        if power[s * 256 + w] == t {
            count += 1;
        }
    }
    count
}

// At s * 16 + t, how many words lead from s to t.
pub fn word_counts(power: &[u8; 4096], words: usize, k: usize) -> [usize; 256]
    requires { (length power.now ≡ 4096) × (words ≤ 256) × (k ≤ 16) }
    ensures answer { (x : ℕ) → x < k * 16
        → (get_or result x 0 ≡ word_count power.now words (x / 16) (x % 16)) × (get_or result x 0 ≤ 256) }
{
    let mut r = [0usize; 256];
    for x in 0..k * 16 {
        r[x] = words_between(power, words, x / 16, (x % 16) as u8);
    }
    r
}

// "the sum over t of A(s, t) × weight(t)": the weight to which the words of s lead.
pub fn led_weight(count: &[usize; 256], v: [usize; 16], k: usize, s: usize) -> usize
    requires { (length count.now ≡ 256) × (k ≤ 16) × (s < k)
        × ((x : ℕ) → x < k * 16 → get_or count.now x 0 ≤ 256) × ((t : ℕ) → t < k → get_or v t 0 ≤ 16) }
    ensures answer { result ≡ sum_by count.now v k s }
{
    let mut sum = 0;
    for t in 0..k {
        sum += count[s * 16 + t] * v[t];
    }
    sum
}

// "the smaller of the old weight and the sum over t of A(s, t) × weight(t), divided by n and rounded down".
pub fn lower_weight(count: &[usize; 256], v: [usize; 16], k: usize, s: usize, n: usize) -> usize
    requires { (length count.now ≡ 256) × (k ≤ 16) × (s < k) × (0 < n)
        × ((x : ℕ) → x < k * 16 → get_or count.now x 0 ≤ 256) × ((t : ℕ) → t < k → get_or v t 0 ≤ 16) }
    ensures answer { result ≡ lower_by count.now v k s n }
{
    v[s].min(led_weight(count, v, k, s) / n)
}

// One round: "replace all weights together".
fn lower_weights(count: &[usize; 256], v: [usize; 16], k: usize, n: usize) -> [usize; 16]
    requires { (length count.now ≡ 256) × (k ≤ 16) × (0 < n)
        × ((x : ℕ) → x < k * 16 → get_or count.now x 0 ≤ 256) × ((t : ℕ) → t < k → get_or v t 0 ≤ 16) }
    ensures answer { (s : ℕ) → s < k → get_or result s 0 ≡ lower_by count.now v k s n }
{
    let mut r = [0usize; 16];
    for s in 0..k {
        r[s] = lower_weight(count, v, k, s, n);
    }
    r
}

// "Start with cap at every state [..] until nothing changes."
pub fn state_weights(
    power: &[u8; 4096],
    words: usize,
    k: usize,
    n: usize,
    cap: usize,
) -> [usize; 16]
    requires { Powers power.now words k × (0 < n) × (cap ≤ 16) }
    ensures answer { (take k result ≡ weights n cap k (tabled power.now words k))
        × ((s : ℕ) → s < k → get_or result s 0 ≤ cap) }
{
    let count = word_counts(power, words, k);
    let mut v = [cap; 16];
    for _round in 0..k * cap {
        let w = lower_weights(&count, v, k, n);
        if w[..k] == v[..k] {
            return v;
        }
        v = w;
    }
    v
}
