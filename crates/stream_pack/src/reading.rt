// Words got out of bytes, each at its bit place.
ghost use Rattle.std.specs.Prelude.{◌≡◌, ◌++◌, ◌*◌, ◌≤◌, length, drop};
ghost use Rattle.stream_pack.specs.Streams.{limit, unpacked};

use bits::get;

// The first `count` words of q bits each at the start of the output.
pub fn get_words(bytes: &[u8], q: usize, count: usize, out: &mut [u8])
    requires { (q ≤ 8) × (count ≤ limit) × (count * q ≤ 8 * length bytes.now) × (count ≤ length out.old) }
    ensures written { out.new ≡ unpacked q count bytes.now ++ drop count out.old }
{
    for i in 0..count {
        out[i] = get(bytes, i * q, q);
    }
}
