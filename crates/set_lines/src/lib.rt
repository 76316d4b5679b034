// What is printed of a good set: a line for each record, and how many there are.
#![tactic(auto)]

ghost use Rattle.std.specs.Prelude.{◌≡◌, ◌++◌, ◌+◌, ◌≤◌, length, take, drop};
ghost use Rattle.text.specs.Texts.{Added};
ghost use Rattle.record_check.specs.Parse.{parse};
ghost use Rattle.set_lines.specs.SetText.{record_line, record_text, lines_to, set_text};

use sentences::write_sentence;
use set_places::find;
use text::Writer;

// The record that stands at a place.
fn write_record_at(to: &mut Writer, i: usize, start: usize, bytes: &[u8])
    ensures lent { to.new.out.ghost_name ≡ to.old.out.ghost_name }
    ensures written { Added (record_line i start (length bytes.now) (parse bytes.now)) to.old.at to.old.out.now
        to.new.out.now to.new.at }
{
    match record_check::load(bytes) {
        Err(_) => to.put(b""),
        Ok(t) => write_sentence(
            to,
            b"record # at byte #, # bytes: p #, q #, # states, m #, a #\n",
            &[
                i,
                start,
                bytes.len(),
                t.p,
                t.q,
                t.states,
                t.memory,
                t.lookahead,
            ],
        ),
    }
}

// Record i of a set.
fn write_record(to: &mut Writer, set: &[u8], i: usize)
    ensures lent { to.new.out.ghost_name ≡ to.old.out.ghost_name }
    ensures written { Added (record_text set.now i) to.old.at to.old.out.now to.new.out.now to.new.at }
{
    match find(set, i) {
        None => to.put(b""),
        Some(place) => {
            let end = place.start + place.len;
            write_record_at(to, i, place.start, &set[place.start..end]);
        }
    }
}

// The first n records of a set.
fn write_records(to: &mut Writer, set: &[u8], n: usize)
    ensures lent { to.new.out.ghost_name ≡ to.old.out.ghost_name }
    ensures written { Added (lines_to set.now n) to.old.at to.old.out.now to.new.out.now to.new.at }
{
    to.put(b"");
    for i in 0..n {
        write_record(to, set, i);
    }
}

// A good set of n records.
pub fn write_set(to: &mut Writer, set: &[u8], n: usize)
    ensures lent { to.new.out.ghost_name ≡ to.old.out.ghost_name }
    ensures written { Added (set_text set.now n) to.old.at to.old.out.now to.new.out.now to.new.at }
{
    write_records(to, set, n);
    write_sentence(to, b"# records, all good\n", &[n]);
}

// A good set of n records at the start of the lent bytes; the answer is the place after it.
pub fn put_set(out: &mut [u8], set: &[u8], n: usize) -> usize
    ensures written { Added (set_text set.now n) 0 out.old out.new result }
{
    let mut writer = Writer::new(out, 0);
    write_set(&mut writer, set, n);
    writer.at
}
