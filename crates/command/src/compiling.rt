// The actions that compile.
ghost use Rattle.std.specs.Prelude.{◌≡◌, length, take};
ghost use Rattle.answer.specs.Outcomes.{answer_of, output_of};
ghost use Rattle.compile.specs.Compile.{compile_run_length, compile_job, compile_joined};
ghost use Rattle.command_arguments.specs.declared.Action.TheVariants.{Compile, CompileJob, CompileJoined, Trace};
ghost use Rattle.command_arguments.specs.Shapes.{shape_of};
ghost use Rattle.command_inputs.specs.Inputs.{From, JobFrom};
ghost use Rattle.command_outputs.specs.Results.{Fails, WellOnly};
ghost use Rattle.command.specs.Ending.{end_of};
ghost use Rattle.command.specs.Acting.{CompiledNumbers, CompiledJob, CompiledJoined};

use command_arguments::{Action, Status};
use command_inputs::{Input, Numbers, load, numbers_said, page};
use command_messages::Host;
use command_messages::system::print;
use command_outputs::finish;
use compile::bytes::{compile_job, compile_joined, compile_run_length};
use trace::tracing::trace_run_length;

// The record of a run-length job, which goes to the file that is named after its weights.
fn compile_numbers<R: Host>(rt: &R, said: Numbers, out: &mut [u8]) -> Status
    requires { JobFrom (shape_of (Compile said.weights)).number said }
    ensures answer { Fails (answer_of (compile_run_length (take said.size said.job) (length out.old))) result }
    ensures written { out.new
        ≡ output_of (compile_run_length (take said.size said.job) (length out.old))
        out.old }
    ensures past { WellOnly CompiledNumbers result }
{
    let a = Action::Compile(said.weights);
    let r = compile_run_length(&said.job[..said.size], out);
    finish(rt, a, a.shape().written, r, out)
}

// The record of a job. `l` is what was read of the job.
fn compile_bytes<R: Host>(rt: &R, l: Input, job: &[u8], out: &mut [u8]) -> Status
    requires { From (shape_of CompileJob).read l job.now }
    ensures answer { Fails (answer_of (compile_job job.now (length out.old))) result }
    ensures written { out.new
        ≡ output_of (compile_job job.now (length out.old)) out.old }
    ensures past { WellOnly CompiledJob result }
{
    let a = Action::CompileJob;
    let r = compile_job(job, out);
    finish(rt, a, a.shape().written, r, out)
}

// The record of a job with two constraints. `l` is what was read of the job.
fn compile_both<R: Host>(rt: &R, l: Input, job: &[u8], out: &mut [u8]) -> Status
    requires { From (shape_of CompileJoined).read l job.now }
    ensures answer { Fails (answer_of (compile_joined job.now (length out.old))) result }
    ensures written { out.new
        ≡ output_of (compile_joined job.now (length out.old)) out.old }
    ensures past { WellOnly CompiledJoined result }
{
    let a = Action::CompileJoined;
    let r = compile_joined(job, out);
    finish(rt, a, a.shape().written, r, out)
}

// compile d k p q cap [weights W0 .. Wk] [OUT]
pub fn compile<R: Host>(rt: &R) -> Status
    ensures answer { WellOnly CompiledNumbers result }
{
    let Some(said) = numbers_said(rt, Action::Compile(0)) else {
        return Status::Misused;
    };
    let mut out = [0u8; 3865];
    compile_numbers(rt, said, &mut out)
}

// compile-job FILE [OUT]. The longest job has 52 bytes; a longer one is refused by its length.
pub fn compile_file<R: Host>(rt: &R) -> Status
    ensures answer { WellOnly CompiledJob result }
{
    let mut job = [0u8; 53];
    let Some(l) = load(rt, Action::CompileJob.shape().read, &mut job) else {
        return Status::Failed;
    };
    let mut out = [0u8; 3865];
    compile_bytes(rt, l, &job[..l.size], &mut out)
}

// compile-joined FILE [OUT]
pub fn compile_joined_file<R: Host>(rt: &R) -> Status
    ensures answer { WellOnly CompiledJoined result }
{
    let mut job = [0u8; 70];
    let Some(l) = load(rt, Action::CompileJoined.shape().read, &mut job) else {
        return Status::Failed;
    };
    let mut out = [0u8; 3865];
    compile_both(rt, l, &job[..l.size], &mut out)
}

// How a trace ends: as compiling the job does.
fn traced(said: Numbers, out: &mut [u8]) -> Status
    requires { JobFrom (shape_of Trace).number said }
    ensures answer { result ≡ end_of (compile_run_length (take said.size said.job) (length out.old)) }
    ensures past { WellOnly CompiledNumbers result }
{
    match compile_run_length(&said.job[..said.size], out) {
        Err(_) => Status::Failed,
        Ok(_) => Status::Done,
    }
}

// trace d k p q cap [weights W0 .. Wk]
pub fn trace_numbers<R: Host>(rt: &R) -> Status
    ensures answer { WellOnly CompiledNumbers result }
{
    let Some(said) = numbers_said(rt, Action::Trace) else {
        return Status::Misused;
    };
    let mut out = page();
    let n = trace_run_length(&said.job[..said.size], &mut out, 0);
    match print(rt, &out[..n]) {
        Status::Done => {
            let mut record = [0u8; 3865];
            traced(said, &mut record)
        }
        _ => Status::Failed,
    }
}
