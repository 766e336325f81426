// Plays the script on standard input, and writes the answers to standard output.
#![tactic(auto)]

use rehearsal::play;
use std::io;

fn main(rt: HostRuntime) -> io::Result<()> {
    let played = play(&rt);
    if let Err(e) = &played {
        eprintln!(rt; "rehearse: the script could not be read, or an answer not be written: {e}")?;
    }
    played
}
