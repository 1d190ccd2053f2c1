// The shell as it is installed: `stamp MAP ZONES` with its exit status, 0 where every request was stamped, 1 where one was not, 2 where it did not run to its end.
#![tactic(auto)]

use std::process::ExitCode;

fn main(rt: HostRuntime) -> ExitCode {
    ExitCode::from(shell::shell_run(&rt, &rt.stderr()))
}
