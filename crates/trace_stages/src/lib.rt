// The lines of the weights and of the component, and why weights fail.
#![tactic(auto)]

ghost use Rattle.std.specs.Prelude.{◌≡◌, ◌++◌, ◌≤◌, get_or, take};
ghost use Rattle.text.specs.Texts.{Added};
ghost use Rattle.trace_stages.specs.StageText.{listed, weights_line, component_line};

use sentences::write_sentence;
use text::Writer;

pub mod failures;

// A name and the first k numbers, a blank in front of each.
fn write_list(to: &mut Writer, name: &[u8], list: [usize; 16], k: usize)
    requires { k ≤ 16 }
    ensures lent { to.new.out.ghost_name ≡ to.old.out.ghost_name }
    ensures written { Added (name.now ++ listed (take k list)) to.old.at to.old.out.now to.new.out.now to.new.at }
{
    let items: &[u8] = b" # # # # # # # # # # # # # # # #";
    let some = 2 * k;
    to.put(name);
    write_sentence(to, &items[..some], &list);
}

// The line of the weights.
pub fn write_weights(to: &mut Writer, v: [usize; 16], k: usize)
    requires { k ≤ 16 }
    ensures lent { to.new.out.ghost_name ≡ to.old.out.ghost_name }
    ensures written { Added (weights_line (take k v)) to.old.at to.old.out.now to.new.out.now to.new.at }
{
    write_list(to, b"weights", v, k);
    to.put(b"\n");
}

// The line of the component, which has k states and weighs `total`.
pub fn write_component(to: &mut Writer, states: [usize; 16], k: usize, start: usize, total: usize)
    requires { (k ≤ 16) × (start ≡ get_or (take k states) 0 0) }
    ensures lent { to.new.out.ghost_name ≡ to.old.out.ghost_name }
    ensures written { Added (component_line (take k states) total) to.old.at to.old.out.now to.new.out.now to.new.at }
{
    write_list(to, b"component of states", states, k);
    write_sentence(to, b", start #, total weight #\n", &[start, total]);
}

// The line of the weights after the first `at` bytes; the answer is the place after it.
pub fn put_weights(out: &mut [u8], at: usize, v: [usize; 16], k: usize) -> usize
    requires { k ≤ 16 }
    ensures written { Added (weights_line (take k v)) at out.old out.new result }
{
    let mut writer = Writer::new(out, at);
    write_weights(&mut writer, v, k);
    writer.at
}

// The line of the component after the first `at` bytes; the answer is the place after it.
pub fn put_component(
    out: &mut [u8],
    at: usize,
    states: [usize; 16],
    k: usize,
    start: usize,
    total: usize,
) -> usize
    requires { (k ≤ 16) × (start ≡ get_or (take k states) 0 0) }
    ensures written { Added (component_line (take k states) total) at out.old out.new result }
{
    let mut writer = Writer::new(out, at);
    write_component(&mut writer, states, k, start, total);
    writer.at
}
