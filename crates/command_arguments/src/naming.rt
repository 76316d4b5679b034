// Actions as words name them.
ghost use Rattle.std.specs.Prelude.{◌≡◌};
ghost use Rattle.command_arguments.specs.Naming.{asked_action, verify_action, recordings_action, stream_action};
ghost use Rattle.command_arguments.specs.Naming.{record_action, action_of};

use crate::{Action, Form, OnRecordings, OnStream, View, Way};
use text::is_same;

// The action that asks about the command itself.
#[tactic(auto, unfolding(crate::specs::Naming::asked_action))]
fn asked_action(word: &[u8]) -> Option<Action>
    ensures answer { result ≡ asked_action word.now }
{
    if is_same(word, b"help") || is_same(word, b"--help") || is_same(word, b"-h") {
        Some(Action::Help)
    } else if is_same(word, b"--version") {
        Some(Action::Version)
    } else {
        None
    }
}

// The action that tells whether words are a recording.
#[tactic(auto, unfolding(crate::specs::Naming::verify_action))]
fn verify_action(word: &[u8]) -> Option<Action>
    ensures answer { result ≡ verify_action word.now }
{
    if is_same(word, b"verify") {
        Some(Action::Verify(Form::Words))
    } else if is_same(word, b"verify-stream") {
        Some(Action::Verify(Form::Stream))
    } else {
        asked_action(word)
    }
}

// The action on several recordings at once.
#[tactic(auto, unfolding(crate::specs::Naming::recordings_action))]
fn recordings_action(word: &[u8]) -> Option<Action>
    ensures answer { result ≡ recordings_action word.now }
{
    if is_same(word, b"weave") {
        Some(Action::Recordings(OnRecordings::Weave))
    } else if is_same(word, b"unweave") {
        Some(Action::Recordings(OnRecordings::Unweave))
    } else {
        verify_action(word)
    }
}

// The action on bit streams.
#[tactic(auto, unfolding(crate::specs::Naming::stream_action))]
fn stream_action(word: &[u8]) -> Option<Action>
    ensures answer { result ≡ stream_action word.now }
{
    if is_same(word, b"pack") {
        Some(Action::Stream(OnStream::Pack))
    } else if is_same(word, b"unpack") {
        Some(Action::Stream(OnStream::Unpack))
    } else if is_same(word, b"encode-stream") {
        Some(Action::Stream(OnStream::Encode))
    } else if is_same(word, b"decode-stream") {
        Some(Action::Stream(OnStream::Decode))
    } else if is_same(word, b"reach") {
        Some(Action::Stream(OnStream::Reach))
    } else {
        recordings_action(word)
    }
}

// The action on one record, or on one and what is recorded under it.
#[tactic(auto, unfolding(crate::specs::Naming::record_action))]
fn record_action(word: &[u8]) -> Option<Action>
    ensures answer { result ≡ record_action word.now }
{
    if is_same(word, b"check") {
        Some(Action::Viewing(View::Check))
    } else if is_same(word, b"show") {
        Some(Action::Viewing(View::Show))
    } else if is_same(word, b"draw") {
        Some(Action::Viewing(View::Draw))
    } else if is_same(word, b"with-tail") {
        Some(Action::WithTail)
    } else if is_same(word, b"encode") {
        Some(Action::Coding(Way::Encode))
    } else if is_same(word, b"decode") {
        Some(Action::Coding(Way::Decode))
    } else {
        stream_action(word)
    }
}

// The action that a word names, if one does.
#[tactic(auto, unfolding(crate::specs::Naming::action_of))]
pub fn action_of(word: &[u8]) -> Option<Action>
    ensures answer { result ≡ action_of word.now }
{
    if is_same(word, b"compile") {
        Some(Action::Compile(0))
    } else if is_same(word, b"compile-job") {
        Some(Action::CompileJob)
    } else if is_same(word, b"trace") {
        Some(Action::Trace)
    } else if is_same(word, b"set") {
        Some(Action::Collection)
    } else if is_same(word, b"compile-joined") {
        Some(Action::CompileJoined)
    } else {
        record_action(word)
    }
}
