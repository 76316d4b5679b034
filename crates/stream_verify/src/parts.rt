// The words of a stream that come back, part by part.
ghost use Rattle.std.specs.Prelude.{◌≡◌, ◌+◌, ◌*◌, ◌-◌, ◌%◌, ◌≤◌, ◌<◌, length};
ghost use Rattle.codec_groups.specs.Lent.{lent_edges};
ghost use Rattle.stream_pack.specs.Streams.{limit, unpacked};
ghost use Rattle.codec_verify.specs.Counting.{due_in, come_back};
ghost use Rattle.stream_verify.specs.Parts.{Reaches};

use crate::part::{Part, Reached, count_in};
use codec_groups::groups::GroupedEdges;
use codec_verify::Sizes;
use stream_decode::smaller;
use stream_pack::reading::get_words;

// How far the words of a part of at most 1,024 words come back. It is unpacked with 16 words before it, which no memory
// exceeds and where a byte starts, or from the first word of all, and with 15 ahead of it, which no lookahead exceeds.
fn count_part(k: Sizes, grouped: &GroupedEdges, stream: &[u8], part: Part) -> Reached
    requires { (k.q ≤ 8) × (part.count ≤ limit) × (part.count * k.q ≤ 8 * length stream.now)
        × (k.memory ≤ 15) × (k.lookahead ≤ 15) × (k.lookahead ≤ part.count)
        × (part.from % 8 ≡ 0) × (part.from ≤ part.end) × (part.end ≤ part.from + 1024)
        × (part.end ≤ part.count) × (part.state < grouped.now.edges.states) × (part.base ≡ part.from - 16) }
    ensures answer { Reaches (lent_edges grouped.now)
        (due_in (lent_edges grouped.now) k (unpacked k.q part.count stream.now))
        (unpacked k.q part.count stream.now) part result }
{
    let skip = part.base / 8 * k.q;
    let mut words = [0u8; 1055];
    get_words(
        &stream[skip..],
        k.q,
        smaller(part.count - part.base, 1055),
        &mut words,
    );
    count_in(k, grouped, &words, part)
}

// How many of the `count` words of a stream come back.
pub fn count_parts(k: Sizes, grouped: &GroupedEdges, stream: &[u8], count: usize) -> usize
    requires { (k.q ≤ 8) × (count ≤ limit) × (count * k.q ≤ 8 * length stream.now)
        × (k.memory ≤ 15) × (k.lookahead ≤ 15) × (k.lookahead ≤ count) }
    ensures answer { result ≡ come_back (lent_edges grouped.now) k (unpacked k.q count stream.now) }
{
    let mut s = 0;
    let mut i = 0;
    while i < count {
        let end = smaller(i + 1024, count);
        let part = Part {
            base: i.saturating_sub(16),
            count,
            state: s,
            from: i,
            end,
        };
        let r = count_part(k, grouped, stream, part);
        let place = r.place;
        if place < end {
            return place;
        }
        s = r.state;
        i += 1024;
    }
    count
}
