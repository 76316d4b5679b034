// The line that says why weights that are brought fail.
ghost use Rattle.std.specs.Prelude.{◌≡◌, false, ℕ, ◌*◌, ◌≤◌, ◌<◌, length, get_or, take};
ghost use Rattle.text.specs.Texts.{Added};
ghost use Rattle.compile_graph.specs.Weights.{passing};
ghost use Rattle.compile_weights.specs.PowerTable.{tabled, Powers, sum_by};
ghost use Rattle.trace_stages.specs.FailText.{short_line, fail_line};

use compile_weights::brought::{first_over, first_unmet, is_some};
use compile_weights::state_weights::{led_weight, word_counts};
use sentences::write_sentence;
use text::Writer;

// Weights that come with a job: those of the first k states, where `power` says for each state to which state each of
// the words leads, n ways out of each state are to come, and no weight is to be over cap.
#[derive(Clone, Copy)]
pub struct Brought<'a> {
    pub power: &'a [u8; 4096],
    pub words: usize,
    pub k: usize,
    pub n: usize,
    pub cap: usize,
    pub weights: [usize; 16],
}

// The inequality fails at state s.
fn write_short(to: &mut Writer, count: &[usize; 256], v: [usize; 16], k: usize, n: usize, s: usize)
    requires { (length count.now ≡ 256) × (k ≤ 16) × (s < k) × (n ≤ 16)
        × ((x : ℕ) → x < k * 16 → get_or count.now x 0 ≤ 256) × ((t : ℕ) → t < k → get_or v t 0 ≤ 16) }
    ensures lent { to.new.out.ghost_name ≡ to.old.out.ghost_name }
    ensures written { Added (short_line s n (get_or v s 0) (sum_by count.now v k s)) to.old.at to.old.out.now
        to.new.out.now to.new.at }
{
    let weight = v[s];
    let sum = led_weight(count, v, k, s);
    write_sentence(
        to,
        b"state #: # times weight # is #, its words lead to weight #\n",
        &[s, n, weight, n * weight, sum],
    );
}

// Why weights fail.
pub fn write_failure(to: &mut Writer, b: Brought)
    requires { Powers b.power.now b.words b.k × (0 < b.n) × (b.n ≤ 16) × (b.cap ≤ 16)
        × (passing b.n b.cap (tabled b.power.now b.words b.k) (take b.k b.weights) ≡ false) }
    ensures lent { to.new.out.ghost_name ≡ to.old.out.ghost_name }
    ensures written { Added (fail_line b.entry.n b.entry.cap
        (tabled b.entry.power.now b.entry.words b.entry.k) (take b.entry.k b.entry.weights)) to.old.at to.old.out.now
        to.new.out.now to.new.at }
{
    let v = b.weights;
    if let Some(s) = first_over(v, b.k, b.cap) {
        write_sentence(
            to,
            b"weight # of state # is over cap #\n",
            &[v[s], s, b.cap],
        );
        return;
    }
    if !is_some(v, b.k) {
        to.put(b"all weights are 0\n");
        return;
    }
    let count = word_counts(b.power, b.words, b.k);
    if let Some(s) = first_unmet(&count, v, b.k, b.n) {
        write_short(to, &count, v, b.k, b.n, s);
    }
}

// Why the first k weights fail, where n ways out of each state are to come, after the first `at` bytes; the answer is
// the place after it.
pub fn put_failure(
    out: &mut [u8],
    at: usize,
    power: &[u8; 4096],
    words: usize,
    k: usize,
    n: usize,
    cap: usize,
    v: [usize; 16],
) -> usize
    requires { Powers power.now words k × (0 < n) × (n ≤ 16) × (cap ≤ 16)
        × (passing n cap (tabled power.now words k) (take k v) ≡ false) }
    ensures written { Added (fail_line n cap (tabled power.now words k) (take k v)) at
        out.old out.new result }
{
    let mut writer = Writer::new(out, at);
    let brought = Brought {
        power,
        words,
        k,
        n,
        cap,
        weights: v,
    };
    write_failure(&mut writer, brought);
    writer.at
}
