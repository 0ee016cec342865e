//! `scooter check SPEC SCRIPT`: whether a migration script gives anybody new access.
//!
//! As a program of its own it is run on a script that leaks.
#![tactic(auto)]

use std::process::ExitCode;

fn main(rt: HostRuntime) -> ExitCode {
    app_main::program(&rt)
}
