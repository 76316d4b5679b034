// FNV-1a over 64 bits, for telling two runs apart.
#![tactic(auto)]

ghost use Rattle.std.specs.Prelude.{◌≡◌, ◌*◌, ◌%◌, ◌^◌};
ghost use Rattle.checksum.specs.Fnv.{step, sum};

// The checksum of no bytes.
pub const START: u64 = 0xcbf2_9ce4_8422_2325;

// x times 2^40 + 435, modulo 2^64.
fn times(x: u64) -> u64
    ensures answer { result ≡ (x * 1099511628211) % 2 ^ 64 }
{
    let low = x % 4294967296 * 435;
    let high = x / 4294967296 * 435;
    let product = std::num::wrapping_add_u64(low, high << 32);
    std::num::wrapping_add_u64(product, x << 40)
}

// The checksum with one byte more.
fn with_byte(x: u64, byte: u8) -> u64
    ensures answer { result ≡ step x byte }
{
    times(x ^ (byte as u64))
}

// The checksum x with more bytes.
pub fn add(x: u64, bytes: &[u8]) -> u64
    ensures answer { result ≡ sum x bytes.now }
{
    let mut sum = x;
    for byte in bytes {
        sum = with_byte(sum, *byte);
    }
    sum
}
