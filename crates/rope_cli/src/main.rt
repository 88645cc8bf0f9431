//! The program `rope`: it runs commands on texts and ropes, one per line.
#![tactic(auto)]

mod program;

use program::program_with_arguments;
use std::process::ExitCode;

fn main(rt: HostRuntime) -> ExitCode {
    let mut input = rt.stdin();
    let mut out = rt.stdout();
    let mut err = rt.stderr();
    ExitCode::from(program_with_arguments(&rt, &mut input, &mut out, &mut err))
}
