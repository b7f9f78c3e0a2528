//! The program: it hands the words of its command line to `top`, with the files of the system as the shelf and standard
//! output as the sink, and ends with the status that `top` answers.
//!
//! It is the highest crate, and as thin as it can be: what a real file holds and what standard output received is not
//! told by any contract, so nothing is decided here but which cause a fault has.
#![tactic(auto)]

mod exit;
mod file_shelf;
mod out_sink;

use exit::{NoWords, exit_with};
use file_shelf::FileShelf;
use out_sink::OutSink;
use reg_top::Args;
use std::env;
use std::io::ErrorKind;
use std::process::ExitCode;
use std::rt::Env;

#[cfg(test)]
mod tests;

fn main(rt: HostRuntime) -> ExitCode {
    let mut shelf = FileShelf::new(&rt);
    let mut sink = OutSink::new(&rt);
    exit_with(&rt, rt.alloc(), words(&rt), &mut shelf, &mut sink)
}

// The words after the program's name.
fn words<R: Env + AllocGlobal>(rt: &R) -> Result<Args, NoWords> {
    let all = match env::args(rt) {
        Ok(all) => all,
        Err(fault) => {
            return Err(match fault.kind() {
                ErrorKind::OutOfMemory => NoWords::NoMemory,
                _ => NoWords::NoText,
            });
        }
    };
    let mut words = Args::new(rt.alloc());
    for word in all.skip(1) {
        if words.push(word.as_str()).is_err() {
            return Err(NoWords::NoMemory);
        }
    }
    Ok(words)
}
