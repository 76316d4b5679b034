// The numbers at the start of a record: "p 3 bits, q 4, states less one 7, m 4, a 4, K less one 4, constraint start
// 4", and the tail datum, "4 bits straight after the constraint start".
ghost use Rattle.std.specs.Prelude.{◌≡◌, ◌*◌, ◌≤◌, length};
ghost use Rattle.bits.specs.Fields.{read, bits_of};
ghost use Rattle.record.specs.Layout.{header, header_bytes, head_of, bit_count, size};
ghost use Rattle.record.specs.Parse.{good_head};
ghost use Rattle.record.specs.Places.{Small};

use table::Head;
use table::chains::ways;

// How many bits the numbers in front have, and how many a constraint state.
pub const FRONT: usize = 34;

pub const STATE: usize = 10;

// The numbers, each less than its field's width lets it be.
pub fn front_of(bytes: &[u8]) -> Head
    requires { header_bytes ≤ length bytes.now }
    ensures answer { result ≡ head_of (read header (bits_of bytes.now)) }
{
    let p = bits::get(bytes, 0, 3) as usize;
    let q = bits::get(bytes, 3, 4) as usize;
    let states = bits::get(bytes, 7, 7) as usize + 1;
    let memory = bits::get(bytes, 14, 4) as usize;
    let lookahead = bits::get(bytes, 18, 4) as usize;
    let count = bits::get(bytes, 22, 4) as usize + 1;
    let start = bits::get(bytes, 26, 4) as usize;
    let tail = bits::get(bytes, 30, 4) as usize;
    Head {
        p,
        q,
        states,
        memory,
        lookahead,
        count,
        start,
        tail,
    }
}

// Whether p, q, the constraint start and the tail datum are in range: otherwise refusal 7.
pub fn good_front(f: Head) -> bool
    ensures answer { result ≡ good_head f }
{
    (1..=4).contains(&f.p) && (1..=8).contains(&f.q) && f.start < f.count && f.tail < ways(f.p)
}

// How many bits the fields have.
pub fn bit_count(f: Head) -> usize
    requires { Small f }
    ensures answer { result ≡ bit_count f }
{
    let n = bits::power(f.p);
    FRONT + STATE * f.count + f.states * (n * (f.q + 7))
}

// The record's length in bytes.
pub fn size_of(f: Head) -> usize
    requires { Small f }
    ensures answer { result ≡ size f }
{
    (bit_count(f) + 7) / 8
}
