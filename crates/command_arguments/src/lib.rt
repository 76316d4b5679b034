// What the arguments of the command say: an action, which arguments it reads and writes, numbers; and how a run ends.
#![tactic(auto)]

ghost use Rattle.std.specs.Prelude.{◌≡◌, ◌≤◌};
ghost use Rattle.command_arguments.specs.Shapes.{shaped, written_after, stream_shape, verify_shape, shape_of, fits};
ghost use Rattle.command_arguments.specs.Shapes.{status_of};

pub mod naming;
pub mod numbers;

// What is printed of a record that is accepted: that it is, its code in words, or its code as a diagram.
#[derive(Clone, Copy)]
pub enum View {
    Check,
    Show,
    Draw,
}

// What is done under a record.
#[derive(Clone, Copy)]
pub enum Way {
    Encode,
    Decode,
}

// What is done with bit streams.
#[derive(Clone, Copy)]
pub enum OnStream {
    Pack,
    Unpack,
    Encode,
    Decode,
    Reach,
}

// What is done with several recordings at once.
#[derive(Clone, Copy)]
pub enum OnRecordings {
    Weave,
    Unweave,
}

// How words are given: one byte each, or as a bit stream.
#[derive(Clone, Copy)]
pub enum Form {
    Words,
    Stream,
}

// What the command does.
#[derive(Clone, Copy)]
pub enum Action {
    // A run-length job, with so many weights after it.
    Compile(usize),
    CompileJob,
    CompileJoined,
    Trace,
    Collection,
    Help,
    Version,
    Viewing(View),
    // A record with another tail datum.
    WithTail,
    Coding(Way),
    Stream(OnStream),
    Recordings(OnRecordings),
    // Whether words are a recording.
    Verify(Form),
}

// What an action takes: the fewest and the most arguments, the program's name among them; the argument that is its
// first number, the others follow it; the argument that names the record it works under, the one that names the file it
// reads, and the one that names the file it writes. 0 is none; without a file to write, or where that argument is left
// out, standard output is written.
#[derive(Clone, Copy)]
pub struct Shape {
    pub fewest: usize,
    pub most: usize,
    pub number: usize,
    pub under: usize,
    pub read: usize,
    pub written: usize,
}

// How a run ends.
#[derive(Clone, Copy, PartialEq, Eq)]
pub enum Status {
    // 0: the result is written.
    Done,
    // 1: a refusal, words that verifying finds to be no recording, or a file that cannot be read or written.
    Failed,
    // 2: arguments that fit no action.
    Misused,
    // 3: words were decoded and their blocks are written, and the words are no recording.
    NoRecording,
}

// Why an argument says no number that is read.
#[derive(Clone, Copy)]
pub enum NumberError {
    // It is above the greatest number that is read.
    Above,
    // It is no number.
    Wrong,
}

// A shape of these numbers.
fn with_places(
    fewest: usize,
    most: usize,
    number: usize,
    under: usize,
    read: usize,
    written: usize,
) -> Shape
    ensures answer { result ≡ shaped fewest most number under read written }
{
    Shape {
        fewest,
        most,
        number,
        under,
        read,
        written,
    }
}

// The argument that names the file that a compiled run-length job is written to: after the five numbers, the word
// `weights` and so many weights, of which there are at most 16.
fn written_after(weights: usize) -> usize
    ensures answer { result ≡ written_after weights }
{
    if weights == 0 { 7 } else { 8 + weights.min(16) }
}

// What an action on bit streams takes.
fn stream_shape(s: OnStream) -> Shape
    ensures answer { result ≡ stream_shape s }
{
    match s {
        OnStream::Pack => with_places(5, 5, 2, 0, 3, 4),
        OnStream::Unpack => with_places(6, 6, 2, 0, 4, 5),
        OnStream::Encode => with_places(5, 5, 0, 2, 3, 4),
        OnStream::Decode => with_places(6, 6, 3, 2, 4, 5),
        OnStream::Reach => with_places(5, 5, 3, 2, 0, 0),
    }
}

// What an action that verifies takes.
fn verify_shape(f: Form) -> Shape
    ensures answer { result ≡ verify_shape f }
{
    match f {
        Form::Words => with_places(4, 4, 0, 2, 3, 0),
        Form::Stream => with_places(5, 5, 3, 2, 4, 0),
    }
}

impl Action {
    // What an action takes.
    pub fn shape(self) -> Shape
        ensures answer { result ≡ shape_of self }
    {
        match self {
            Action::Compile(w) => with_places(7, 25, 2, 0, 0, written_after(w)),
            Action::CompileJob | Action::CompileJoined => with_places(3, 4, 0, 0, 2, 3),
            Action::Trace => with_places(7, 24, 2, 0, 0, 0),
            Action::Collection => with_places(3, 3, 0, 0, 2, 0),
            Action::Help => with_places(2, 3, 0, 0, 0, 0),
            Action::Version => with_places(2, 2, 0, 0, 0, 0),
            Action::Viewing(_) => with_places(3, 3, 0, 2, 0, 0),
            Action::WithTail => with_places(5, 5, 3, 2, 0, 4),
            Action::Coding(_) => with_places(5, 5, 0, 2, 3, 4),
            Action::Stream(s) => stream_shape(s),
            Action::Recordings(_) => with_places(5, 5, 2, 0, 3, 4),
            Action::Verify(f) => verify_shape(f),
        }
    }
}

impl Shape {
    // Whether a count of arguments is from the fewest to the most.
    pub fn is_fitting(self, count: usize) -> bool
        ensures answer { result ≡ fits self.fewest self.most count }
    {
        (self.fewest..=self.most).contains(&count)
    }
}

impl Status {
    // The exit status.
    pub fn number(self) -> u32
        ensures answer { result ≡ status_of self }
        ensures past { result ≤ 3 }
    {
        match self {
            Status::Done => 0,
            Status::Failed => 1,
            Status::Misused => 2,
            Status::NoRecording => 3,
        }
    }
}
