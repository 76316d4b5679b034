// Runs the test vectors of the outside implementation, data/vectors, against the library. It prints the length and the
// checksum of the file; the number, from 0, of each case that differs; and for each kind of call, then for all, how
// many cases there are and how many of them differ. The stored output is that of a run without a difference.
#![tactic(auto)]

ghost use Rattle.std.specs.Prelude.{◌≤◌, length};

mod calls;
mod walk;

use checksum::START;
use files::LoadError;
use sentences::put_sentence;
use text::{put, put_hex, put_line};
use walk::{Tally, is_end, walk};

// A text.
fn say<R: Print>(rt: &R, words: &[u8]) {
    let _ = rt.write_all(words);
}

// The length and the checksum of the file.
fn say_file<R: Print>(rt: &R, bytes: &[u8]) {
    let mut out = [0u8; 128];
    let name = put_sentence(&mut out, 0, b"bytes #\nchecksum ", &[bytes.len()]);
    let sum = put_hex(&mut out, name, checksum::add(START, bytes), 16);
    let size = put(&mut out, sum, b"\n");
    let _ = rt.write_all(&out[..size]);
}

// A name and a number on a line.
fn say_number<R: Print>(rt: &R, name: &[u8], n: u64) {
    let mut out = [0u8; 128];
    let size = put_line(&mut out, 0, name, n);
    let _ = rt.write_all(&out[..size]);
}

// The numbers of a tally as they are printed: of kinds 1 to 17 and then of all, how many cases, and how many differ.
fn numbers_of(t: Tally) -> [usize; 36] {
    let mut numbers = [0usize; 36];
    for i in 0..17 {
        numbers[2 * i] = t.kinds[i + 1] as usize;
        numbers[2 * i + 1] = t.differ[i + 1] as usize;
    }
    numbers[34] = t.cases as usize;
    numbers[35] = t.wrong as usize;
    numbers
}

// What is printed of a tally.
fn say_tally<R: Print>(rt: &R, t: Tally) {
    let mut out = [0u8; 1024];
    let numbers = numbers_of(t);
    let size = put_sentence(
        &mut out,
        0,
        b"compile_job # cases, differ #\ncompile_run_length # cases, differ #\ncheck # cases, differ #\n\
        encode # cases, differ #\ndecode # cases, differ #\nset # cases, differ #\n\
        listing # cases, differ #\ncompile_joined # cases, differ #\npack # cases, differ #\n\
        unpack # cases, differ #\nencode_stream # cases, differ #\ndecode_stream # cases, differ #\n\
        with_tail # cases, differ #\nweave # cases, differ #\nunweave # cases, differ #\n\
        verify # cases, differ #\nverify_stream # cases, differ #\nall # cases, differ #\n",
        &numbers,
    );
    let _ = rt.write_all(&out[..size]);
}

// Runs every case and prints what came out.
fn run<R: Print>(rt: &R, bytes: &[u8])
    requires { length bytes.now ≤ 1000000 }
{
    say_file(rt, bytes);
    let t = walk(rt, bytes);
    if !is_end(bytes, t.at) {
        say_number(rt, b"neither a whole case nor the end: case ", t.cases);
    }
    say_tally(rt, t);
}

fn main(rt: HostRuntime) {
    let mut bytes = files::buffer();
    let loaded = files::load(&rt, b"vectors", &mut bytes);
    match loaded {
        Ok(n) => run(&rt, &bytes[..n]),
        Err(LoadError::Unreadable(_)) => say(&rt, b"vectors cannot be read\n"),
        Err(LoadError::TooLong) => say(&rt, b"vectors is too long\n"),
    }
}
