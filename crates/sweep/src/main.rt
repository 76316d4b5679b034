// Compiles every run-length job, d 0 to 15, k d to 15, p 1 to 4, q 1 to 8, cap 1 to 16, in order of these bytes. It
// prints how many jobs there are, how many compiled, how many were refused with 3, 4, 5 and 6, and the checksum FNV-1a
// over, for each job, its five bytes, the number of its answer (0 if it compiled) and the bytes of its record, none if
// it was refused. The stored output has the numbers that the outside implementation in reference/ prints: it is what
// shows that the counts are right, so that only safety is proved here.
#![tactic(auto)]

ghost use Rattle.std.specs.Prelude.{◌<◌};
ghost use Rattle.io.specs.Counts.{IsPrefixLen};

use answer::{Refusal, answer_number};
use compile::bytes::compile_run_length;
use sentences::put_sentence;
use text::{put, put_hex};

// How many jobs there were, how many of them had each answer by its number, and the checksum.
#[derive(Clone, Copy)]
struct Tally {
    jobs: usize,
    answers: [usize; 256],
    sum: u64,
}

// No job.
fn no_job() -> Tally {
    Tally {
        jobs: 0,
        answers: [0usize; 256],
        sum: checksum::START,
    }
}

// Job number i of those with d and k from 0 to 15.
fn job_at(i: usize) -> [u8; 5]
    requires { i < 131072 }
{
    [
        (i / 8192) as u8,
        (i / 512 % 16) as u8,
        (i / 128 % 4 + 1) as u8,
        (i / 16 % 8 + 1) as u8,
        (i % 16 + 1) as u8,
    ]
}

// How many bytes at the start of the output are the result.
fn size_of(a: Result<usize, Refusal>, out: &[u8]) -> usize
    ensures within { IsPrefixLen result out.now }
{
    match a {
        Ok(size) => size.min(out.len()),
        Err(_) => 0,
    }
}

// The checksum with a job, the number of its answer and the bytes of its record more.
fn sum_with(x: u64, job: &[u8], a: Result<usize, Refusal>, number: u8, out: &[u8]) -> u64 {
    let size = size_of(a, out);
    checksum::add(
        checksum::add(checksum::add(x, job), &[number]),
        &out[..size],
    )
}

// The tally with job number i more.
fn with_job(t: Tally, i: usize) -> Tally
    requires { i < 131072 }
{
    let job = job_at(i);
    let mut out = io::buffer();
    let a = compile_run_length(&job, &mut out);
    let n = (answer_number(a) % 256) as usize;
    let mut r = t;
    r.jobs = t.jobs.wrapping_add(1);
    r.answers[n] = t.answers[n].wrapping_add(1);
    r.sum = sum_with(t.sum, &job, a, n as u8, &out);
    r
}

// The tally with job number i more, if its d is not above its k.
fn with_number(t: Tally, i: usize) -> Tally
    requires { i < 131072 }
{
    if i / 512 % 16 < i / 8192 {
        t
    } else {
        with_job(t, i)
    }
}

// The tally of all jobs.
fn sweep() -> Tally {
    let mut t = no_job();
    for i in 0..131072 {
        t = with_number(t, i);
    }
    t
}

// What is printed of a tally.
fn say<R: Print>(rt: &R, t: Tally) {
    let mut out = io::buffer();
    let sum = put_sentence(
        &mut out,
        0,
        b"jobs #\ncompiled #\nrefusal 3 #\nrefusal 4 #\nrefusal 5 #\nrefusal 6 #\nchecksum ",
        &[
            t.jobs,
            t.answers[0],
            t.answers[3],
            t.answers[4],
            t.answers[5],
            t.answers[6],
        ],
    );
    let end = put_hex(&mut out, sum, t.sum, 16);
    let size = put(&mut out, end, b"\n");
    let _ = rt.write_all(&out[..size]);
}

fn main(rt: HostRuntime) {
    say(&rt, sweep());
}
