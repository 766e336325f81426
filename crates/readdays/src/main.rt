// Reads many strings as day files: frames on standard input, a line for each on standard output.
#![tactic(auto)]

mod answer;
mod frame;
mod stream;
#[cfg(test)]
mod tests;
mod texts;

use crate::stream::{Ending, answer_all};
use std::process::ExitCode;

fn main(rt: HostRuntime) -> ExitCode {
    match answer_all(&rt) {
        Ok(Ending::Whole) => ExitCode::SUCCESS,
        Ok(Ending::CutShort) => ExitCode::FAILURE,
        Err(e) => {
            let _ = eprintln!(rt;
                "readdays: a frame could not be read, or a line not be written: {e}"
            );
            ExitCode::FAILURE
        }
    }
}
