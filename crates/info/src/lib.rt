// What a caller asks before it uses a record or after a refusal: the numbers of a record, and the words of a refusal.
#![tactic(auto)]

ghost use Rattle.std.specs.Prelude.{◌≡◌, T, length};
ghost use Rattle.answer.specs.Outcomes.{fitting, answer_of, output_of};
ghost use Rattle.table.specs.Value.{code_in, ready};
ghost use Rattle.info.specs.Info.{numbers_of, info_under, phrase_into};

use answer::Refusal;
use record_check::load;
use table::Table;
use text::Writer;
use view_listing::filling::fill;
use view_refusals::write_words;

// The numbers of a table in the output, one byte each.
fn tell_numbers(t: Table, out: &mut [u8]) -> Result<usize, Refusal>
    requires { T (ready t) }
    ensures answer { result ≡ answer_of (fitting (length out.old) (numbers_of (code_in t))) }
    ensures written { out.new
        ≡ output_of (fitting (length out.old) (numbers_of (code_in t))) out.old }
{
    let numbers = [
        t.p as u8,
        t.q as u8,
        (t.states - 1) as u8,
        t.memory as u8,
        t.lookahead as u8,
        t.constraint.states as u8,
        t.start as u8,
        t.tail as u8,
    ];
    fill(out, &numbers)
}

// The numbers of the record in the bytes, in the output: p, q, states less one, m, a, K, constraint start and tail
// datum. Declines with the record's refusal, then 13.
pub fn info(bytes: &[u8], out: &mut [u8]) -> Result<usize, Refusal>
    ensures answer { result ≡ answer_of (info_under bytes.now (length out.old)) }
    ensures written { out.new
        ≡ output_of (info_under bytes.now (length out.old)) out.old }
{
    tell_numbers(load(bytes)?, out)
}

// The words of a refusal's number in the output, none for a number that is no refusal. Declines with 13.
pub fn phrase(number: u64, out: &mut [u8]) -> Result<usize, Refusal>
    ensures answer { result ≡ answer_of (phrase_into number (length out.old)) }
    ensures written { out.new ≡ output_of (phrase_into number (length out.old)) out.old }
{
    let mut words = [0u8; 60];
    let mut writer = Writer::new(&mut words, 0);
    write_words(&mut writer, number);
    let end = writer.at;
    fill(out, &words[..end])
}
