// The refusals in words, in one table.
#![tactic(auto)]

ghost use Rattle.std.specs.Prelude.{◌≡◌};
ghost use Rattle.text.specs.Texts.{Added};
ghost use Rattle.view_refusals.specs.Phrases.{words_of, phrase_of, refusal_words, refusal_line};

use crate::lines::line;
use answer::Refusal;
use text::Writer;

mod lines;

// The words of a number. Line 0 is empty, a number that is no refusal has no words, and 11 has its place after the
// words.
pub fn write_words(to: &mut Writer, number: u64)
    ensures lent { to.new.out.ghost_name ≡ to.old.out.ghost_name }
    ensures written { Added (words_of number) to.old.at to.old.out.now to.new.out.now to.new.at }
{
    if number > 17 {
        to.put(b"");
        return;
    }
    let words: &[u8] = b"\n\
        p, q or cap out of range\n\
        K, a next state, or d and k out of range\n\
        no code: all weights 0\n\
        the component's weights sum to over 128\n\
        over 2,048 edges, before any split or after one\n\
        no window up to 15 and 15\n\
        record field out of range, absent state not 0, or fill not 0\n\
        length is not what the fields say, or too short for them\n\
        some recording breaks the constraint\n\
        the window fails\n\
        block of 2^p or more, or word of 2^q or more, at place \n\
        fewer than a words\n\
        the output is too short\n\
        two constraints give more than 16 pairs of states\n\
        over 1,000,000 words, wrong number of bytes, or fill not 0\n\
        depth D is not 2 to 16, or does not divide the length\n\
        weights over cap, all 0, or the inequality fails at a state\n";
    to.put(line(words, number as usize));
}

// The condition of a refusal.
pub fn write_phrase(to: &mut Writer, r: Refusal)
    ensures lent { to.new.out.ghost_name ≡ to.old.out.ghost_name }
    ensures written { Added (phrase_of r) to.old.at to.old.out.now to.new.out.now to.new.at }
{
    let number = r.number();
    write_words(to, number);
    if number == 11 {
        to.decimal(r.place() as u64);
    }
}

// The number and the condition of a refusal.
pub fn write_refusal(to: &mut Writer, r: Refusal)
    ensures lent { to.new.out.ghost_name ≡ to.old.out.ghost_name }
    ensures written { Added (refusal_words r) to.old.at to.old.out.now to.new.out.now to.new.at }
{
    to.number(b"refused ", r.number());
    to.put(b": ");
    write_phrase(to, r);
}

// The same as a line.
pub fn write_refusal_line(to: &mut Writer, r: Refusal)
    ensures lent { to.new.out.ghost_name ≡ to.old.out.ghost_name }
    ensures written { Added (refusal_line r) to.old.at to.old.out.now to.new.out.now to.new.at }
{
    write_refusal(to, r);
    to.put(b"\n");
}

// The words of a number after the first `at` bytes; the answer is the place after them.
pub fn put_words(out: &mut [u8], at: usize, number: u64) -> usize
    ensures written { Added (words_of number) at out.old out.new result }
{
    let mut writer = Writer::new(out, at);
    write_words(&mut writer, number);
    writer.at
}

// The condition of a refusal after the first `at` bytes; the answer is the place after it.
pub fn put_phrase(out: &mut [u8], at: usize, r: Refusal) -> usize
    ensures written { Added (phrase_of r) at out.old out.new result }
{
    let mut writer = Writer::new(out, at);
    write_phrase(&mut writer, r);
    writer.at
}

// The number and the condition of a refusal after the first `at` bytes; the answer is the place after them.
pub fn put_refusal(out: &mut [u8], at: usize, r: Refusal) -> usize
    ensures written { Added (refusal_words r) at out.old out.new result }
{
    let mut writer = Writer::new(out, at);
    write_refusal(&mut writer, r);
    writer.at
}

// The same as a line; the answer is the place after it.
pub fn put_refusal_line(out: &mut [u8], at: usize, r: Refusal) -> usize
    ensures written { Added (refusal_line r) at out.old out.new result }
{
    let mut writer = Writer::new(out, at);
    write_refusal_line(&mut writer, r);
    writer.at
}
