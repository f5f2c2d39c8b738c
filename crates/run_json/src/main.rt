//! The program over a lens whose rays it traces, as JSON: a stored run.
#![tactic(auto)]

use lensprogram::program::process;
use std::marker::Brand;
use std::process::ExitCode;
use std::sync::ledger::Blank;

fn main(rt: HostRuntime) -> ExitCode {
    process::<HostRuntime, Brand>(&rt, Blank::new(1))
}
