// The action that tells how the command is used.
ghost use Rattle.std.specs.Prelude.{◌≤◌};
ghost use Rattle.command_arguments.specs.Shapes.{status_of};

use command_arguments::naming::action_of;
use command_arguments::{Action, Status};
use command_messages::Host;
use command_messages::arguments::{argument_count, word};
use command_messages::usage::{misused_word, print_use};

// help [ACTION]
pub fn help<R: Host>(rt: &R) -> Status
    ensures past { status_of result ≤ 2 }
{
    if argument_count(rt) < 3 {
        return print_use(rt, Action::Help);
    }
    let mut said = io::buffer();
    let n = word(rt, 2, &mut said);
    match action_of(&said[..n]) {
        Some(a) => print_use(rt, a),
        None => misused_word(rt, Action::Help, &said[..n], b": no such action"),
    }
}
