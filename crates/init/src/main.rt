// The program `init`: docs/PROGRAMS.md says what it does.
#![tactic(auto)]

use commands::{Program, run};
use std::process::ExitCode;

fn main(rt: HostRuntime) -> ExitCode {
    run(&rt, Program::Init)
}
