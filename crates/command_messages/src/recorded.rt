// How the actions on recordings and on bit streams are used; a run fails where not all of it was written.
ghost use Rattle.std.specs.Prelude.{◌≤◌};
ghost use Rattle.command_arguments.specs.Shapes.{status_of};

use crate::{Host, Outlet, tell_text};
use command_arguments::{Form, OnRecordings, OnStream, Status, Way};

// The actions that encode and decode.
pub fn tell_coding<R: Host>(rt: &R, to: Outlet, w: Way) -> Status
    ensures past { status_of result ≤ 1 }
{
    match w {
        Way::Encode => tell_text(
            rt,
            to,
            b"usage: sbc encode RECORD DATA OUT
Encodes the blocks in DATA, one byte each and below 2^p, under the record in RECORD, and writes the words to OUT, one
byte each. N blocks give N + a words: the recording closes with a blocks of the record's tail datum. At most 1,000,000
blocks. Only one of RECORD and DATA can be -.
",
        ),
        Way::Decode => tell_text(
            rt,
            to,
            b"usage: sbc decode RECORD WORDS OUT
Decodes the words in WORDS, one byte each and below 2^q, under the record in RECORD, and writes the blocks to OUT, one
byte each. W words give W - a blocks. A block that cannot be read is a mark: 254 where the words up to it are no path
through the code, 255 where they are one, but not with the words ahead. How many there are of each is said on standard
error. No mark is no promise: where the words are no recording, the line of verify is said too, and the exit status is
3. At most 1,000,015 words. Only one of RECORD and WORDS can be -.
",
        ),
    }
}

// The actions that encode to a bit stream and decode from one.
fn tell_stream_coding<R: Host>(rt: &R, to: Outlet, w: Way) -> Status
    ensures past { status_of result ≤ 1 }
{
    match w {
        Way::Encode => tell_text(
            rt,
            to,
            b"usage: sbc encode-stream RECORD DATA OUT
Encodes the blocks in DATA, one byte each and below 2^p, under the record in RECORD, and writes the words to OUT as a
bit stream, as pack does. N blocks give N + a words. At most 1,000,000 words. Only one of RECORD and DATA can be -.
",
        ),
        Way::Decode => tell_text(
            rt,
            to,
            b"usage: sbc decode-stream RECORD COUNT STREAM OUT
Decodes the COUNT words of the bit stream in STREAM under the record in RECORD, and writes the blocks to OUT, one byte
each. COUNT counts the closing words too: N blocks were recorded as N + a words. STREAM is as for unpack. A block that
cannot be read is a mark, 254 or 255, as for decode; how many there are of each is said on standard error. The exit
status is 3 where the words are no recording, as for decode. At most 1,000,000 words. Only one of RECORD and STREAM can
be -.
",
        ),
    }
}

// The actions on bit streams.
pub fn tell_stream<R: Host>(rt: &R, to: Outlet, how: OnStream) -> Status
    ensures past { status_of result ≤ 1 }
{
    match how {
        OnStream::Pack => tell_text(
            rt,
            to,
            b"usage: sbc pack q WORDS OUT
Packs the words in WORDS, one byte each and below 2^q, into a bit stream: q bits a word, eight bits a byte, first bit
highest, the last byte filled with 0. q: 1 to 8. At most 1,000,000 words.
",
        ),
        OnStream::Unpack => tell_text(
            rt,
            to,
            b"usage: sbc unpack q COUNT STREAM OUT
Unpacks the bit stream in STREAM into COUNT words of q bits, and writes them to OUT, one byte each. The length of STREAM
must be COUNT x q / 8 bytes, rounded up, with 0 in the bits behind the last word. q: 1 to 8. At most 1,000,000 words.
",
        ),
        OnStream::Encode => tell_stream_coding(rt, to, Way::Encode),
        OnStream::Decode => tell_stream_coding(rt, to, Way::Decode),
        OnStream::Reach => tell_text(
            rt,
            to,
            b"usage: sbc reach RECORD FIRST LAST
Prints the blocks that can differ from the data written when channel bits FIRST to LAST of a stream are overwritten:
FIRST / q - a to LAST / q + m. FIRST is at most LAST. Bits and blocks are counted from 0. Lost or added bits are
outside this.
",
        ),
    }
}

// The actions that weave and unweave.
pub fn tell_recordings<R: Host>(rt: &R, to: Outlet, r: OnRecordings) -> Status
    ensures past { status_of result ≤ 1 }
{
    match r {
        OnRecordings::Weave => tell_text(
            rt,
            to,
            b"usage: sbc weave D IN OUT
Weaves the D recordings in IN, which stand one after the other and have equally many words, one byte each: word j of
recording r goes to place j x D + r of OUT. All three are counted from 0. D: 2 to 16, and it must divide the number of
words. At most 1,000,015 words in all. Overwriting up to D neighbouring words of OUT with words below 2^q spoils at most
one word of each recording, so at most m + a + 1 blocks of each. Lost or added words are outside this.
",
        ),
        OnRecordings::Unweave => tell_text(
            rt,
            to,
            b"usage: sbc unweave D IN OUT
Takes the D recordings that are woven in IN apart again, and writes them to OUT one after the other, one byte a word: it
undoes weave with the same D. D: 2 to 16, and it must divide the number of words. At most 1,000,015 words in all.
",
        ),
    }
}

// The actions that tell whether words are a recording.
pub fn tell_verify<R: Host>(rt: &R, to: Outlet, f: Form) -> Status
    ensures past { status_of result ≤ 1 }
{
    match f {
        Form::Words => tell_text(
            rt,
            to,
            b"usage: sbc verify RECORD WORDS
Says whether the words in WORDS, one byte each and below 2^q, are a recording under the record in RECORD: whether
encoding their decoded blocks gives them back. If not, it says on standard error how many come back, from the first on,
and the exit status is 1. If they were a recording once, the first that was changed stands at most a words after those
that come back. A damaged list can itself be a recording: a checksum over the data stays due. At most 1,000,015 words.
Only one of RECORD and WORDS can be -.
",
        ),
        Form::Stream => tell_text(
            rt,
            to,
            b"usage: sbc verify-stream RECORD COUNT STREAM
Says whether the COUNT words of the bit stream in STREAM are a recording under the record in RECORD, as verify does.
COUNT counts the closing words too. STREAM is as for unpack. At most 1,000,000 words. Only one of RECORD and STREAM can
be -.
",
        ),
    }
}
