//! The program, run on a script that is not well typed.
#![tactic(auto)]

use std::process::ExitCode;

fn main(rt: HostRuntime) -> ExitCode {
    app_main::program(&rt)
}
