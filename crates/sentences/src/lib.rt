// Sentences: a pattern of bytes in which each `#` stands for a number, and each `~` for the plural ending that a number
// asks for.
#![tactic(auto)]

ghost use Rattle.std.specs.Prelude.{◌≡◌, get_or};
ghost use Rattle.text.specs.Texts.{Added};
ghost use Rattle.sentences.specs.Sentences.{plural, shown, takes, sentence};

use text::Writer;

// Number k of a list, 0 past its end.
fn number_at(numbers: &[usize], k: usize) -> usize
    ensures answer { result ≡ get_or numbers.now k 0 }
{
    numbers.get(k).copied().unwrap_or(0)
}

// The plural ending for a number.
fn write_plural(to: &mut Writer, n: usize)
    ensures lent { to.new.out.ghost_name ≡ to.old.out.ghost_name }
    ensures written { Added (plural n) to.old.at to.old.out.now to.new.out.now to.new.at }
{
    to.put(if n == 1 { b"" } else { b"s" });
}

// What stands for a byte of a pattern.
fn write_shown(to: &mut Writer, b: u8, n: usize)
    ensures lent { to.new.out.ghost_name ≡ to.old.out.ghost_name }
    ensures written { Added (shown b n) to.old.at to.old.out.now to.new.out.now to.new.at }
{
    match b {
        b'#' => to.decimal(n as u64),
        b'~' => write_plural(to, n),
        _ => to.put(&[b]),
    }
}

// How many numbers a byte of a pattern takes.
fn takes(b: u8) -> usize
    ensures answer { result ≡ takes b }
{
    usize::from(b == b'#' || b == b'~')
}

// A sentence.
pub fn write_sentence(to: &mut Writer, pattern: &[u8], numbers: &[usize])
    ensures lent { to.new.out.ghost_name ≡ to.old.out.ghost_name }
    ensures written { Added (sentence pattern.now numbers.now) to.old.at to.old.out.now to.new.out.now to.new.at }
{
    to.put(b"");
    let mut k = 0;
    for b in pattern {
        write_shown(to, *b, number_at(numbers, k));
        k += takes(*b);
    }
}

// A sentence after the first `at` bytes; the answer is the place after it.
pub fn put_sentence(out: &mut [u8], at: usize, pattern: &[u8], numbers: &[usize]) -> usize
    ensures written { Added (sentence pattern.now numbers.now) at out.old out.new result }
{
    let mut writer = Writer::new(out, at);
    write_sentence(&mut writer, pattern, numbers);
    writer.at
}
