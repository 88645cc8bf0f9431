//! The program `recode`: it decodes its input in an encoding of the web, and writes UTF-8.
#![tactic(auto)]

mod list;
mod nearest;
mod offset;
mod program;
mod recode;
mod request;
mod strict;

use program::program_with_arguments;
use std::process::ExitCode;

fn main(rt: HostRuntime) -> ExitCode {
    let mut input = rt.stdin();
    let mut out = rt.stdout();
    let mut err = rt.stderr();
    ExitCode::from(program_with_arguments(&rt, &mut input, &mut out, &mut err))
}
