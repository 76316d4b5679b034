// A table written as a record, part by part into lent bytes.
#![tactic(auto)]

ghost use Rattle.std.specs.Prelude.{◌≡◌, ◌++◌, ◌+◌, ◌*◌, ◌-◌, ◌^◌, ◌≤◌, length, drop};
ghost use Rattle.bits.specs.Bytes.{spliced};
ghost use Rattle.bits.specs.Fields.{bits, bits_of};
ghost use Rattle.constraint.specs.Value.{constraint_of};
ghost use Rattle.table.specs.Value.{code_in, rows_in, table_head, Ready};
ghost use Rattle.answer.specs.Outcomes.{answer_of, output_of};
ghost use Rattle.record.specs.Checks.{pack_with};
ghost use Rattle.record.specs.Layout.{header_bits, header_bytes, state_size, size, pack};
ghost use Rattle.record.specs.Parts.{front_bits, next_bits, states_bits, rows_bits};

use answer::Refusal;
use constraint::Constraint;
use record::numbers;
use record::numbers::{FRONT, STATE};
use table::{Head, Table};

// The lowest `width` bits of x become the field at the bit place `at`.
fn put_low(out: &mut [u8], at: usize, width: usize, x: usize)
    requires { (width ≤ 8) × (at + width ≤ 8 * length out.old) }
    ensures written { bits_of out.new ≡ spliced at (bits width x) (bits_of out.old) }
    ensures kept { length out.new ≡ length out.old }
{
    bits::put(out, at, width, bits::low_bits(x, width));
}

// The numbers in front.
fn put_front(out: &mut [u8], f: Head)
    requires { header_bytes ≤ length out.old }
    ensures written { bits_of out.new ≡ spliced 0 (front_bits f)
        (bits_of out.old) }
    ensures kept { length out.new ≡ length out.old }
{
    put_low(out, 0, 3, f.p);
    put_low(out, 3, 4, f.q);
    put_low(out, 7, 7, f.states.saturating_sub(1));
    put_low(out, 14, 4, f.memory);
    put_low(out, 18, 4, f.lookahead);
    put_low(out, 22, 4, f.count.saturating_sub(1));
    put_low(out, 26, 4, f.start);
    put_low(out, 30, 4, f.tail);
}

// A next state at the bit place `at`, 255 for none.
fn put_next(out: &mut [u8], at: usize, next: u8)
    requires { at + 5 ≤ 8 * length out.old }
    ensures written { bits_of out.new ≡ spliced at (next_bits next) (bits_of out.old) }
    ensures kept { length out.new ≡ length out.old }
{
    let field = if next == 255 {
        0
    } else {
        16 + bits::low_bits(next as usize, 4)
    };
    bits::put(out, at, 5, field);
}

// The constraint, after the numbers in front.
fn put_states(out: &mut [u8], constraint: Constraint)
    requires { (constraint.states ≤ 16) × (header_bits + constraint.states * state_size ≤ 8 * length out.old) }
    ensures written { bits_of out.new ≡ spliced header_bits (states_bits (constraint_of constraint))
        (bits_of out.old) }
    ensures kept { length out.new ≡ length out.old }
{
    for s in 0..constraint.states {
        put_next(out, FRONT + s * STATE, constraint.zero[s]);
        put_next(out, FRONT + 5 + s * STATE, constraint.one[s]);
    }
}

// The edges of all states, after the constraint, the first at the bit place `first`.
fn put_edges(out: &mut [u8], t: Table, first: usize)
    requires { Ready t × (first ≤ 256) × (first + t.states * 2 ^ t.p * (t.q + 7) ≤ 8 * length out.old) }
    ensures written { bits_of out.new
        ≡ spliced first (rows_bits t.q (rows_in t)) (bits_of out.old) }
    ensures kept { length out.new ≡ length out.old }
{
    let n = bits::power(t.p);
    let q = t.q;
    for e in 0..t.states * n {
        let i = e / n * 16 + e % n;
        let at = first + e * (q + 7);
        put_low(out, at, q, t.word[i] as usize);
        put_low(out, at + q, 7, t.next[i] as usize);
    }
}

// The whole record of a table, with the numbers f in front and `long` bytes.
fn put_record(out: &mut [u8], t: Table, f: Head, long: usize)
    requires { Ready t × (f ≡ table_head t) × (long ≡ size (table_head t)) × (long ≤ length out.old) }
    ensures written { out.new ≡ pack (code_in t)
        ++ drop (length (pack (code_in t))) out.old }
{
    let at = numbers::bit_count(f);
    put_front(out, f);
    put_states(out, t.constraint);
    put_edges(out, t, FRONT + f.count * STATE);
    bits::put(out, at, 8 * long - at, 0);
}

// The record of a table into lent bytes: refusal 7 where a field is out of range, and 13 where they are too few.
pub fn write(t: Table, out: &mut [u8]) -> Result<usize, Refusal>
    ensures answer { result ≡ answer_of (pack_with t (length out.old)) }
    ensures written { out.new ≡ output_of (pack_with t (length out.old))
        out.old }
{
    if !t.is_ready() {
        return Err(Refusal::Field);
    }
    let f = t.head();
    let long = numbers::size_of(f);
    if out.len() < long {
        return Err(Refusal::ShortOutput);
    }
    put_record(out, t, f, long);
    Ok(long)
}
