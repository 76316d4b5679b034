// The command `sbc`, whose exit status is the answer: 0 for a result; 1 for a refusal, for words that `verify` finds to
// be no recording, or for a file that cannot be read or written; 2 for wrong usage; 3 where words were decoded that are
// no recording. The gate runs it with the arguments in `args`; `build` makes it the command.
#![tactic(auto)]

use std::process::ExitCode;

fn main(rt: HostRuntime) -> ExitCode {
    ExitCode::from(command::run(&rt) as u8)
}
