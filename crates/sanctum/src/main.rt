//! The program: runs scripts on the machine and prints what happened as one legal history, makes images from
//! assembler texts, writes images anew, and counts the hits of a coloured cache.
#![tactic(auto)]

ghost use Rattle.sanctum.specs.Answers.{IsRefusal};

mod convert;
mod faults;
mod image;
mod orders;
mod output;
mod pack;
mod run;
mod sources;
mod status;
mod top;
mod trace;
mod words;

use faults::refuse;
use sm_ports::{FileDepot, OpenGate, StdSink};
use status::Status;
use std::alloc::Global;
use std::process::ExitCode;
use std::rt::Env;
use std::{env, io};
use top::sanctum;

fn main(rt: HostRuntime) -> ExitCode {
    let mut depot = FileDepot::new(&rt);
    let mut out = StdSink::new(&rt);
    let status = match command_words(&rt) {
        Ok(words) => sanctum(&rt, rt.alloc(), &words, &mut depot, &mut out, &OpenGate),
        Err(error) => refuse(&mut out, refusal_of(&error)),
    };
    ExitCode::from(status.code())
}

/// The answer where the words could not be had: there was no memory, or one of them is not UTF-8.
fn refusal_of(error: &io::Error) -> Status
    ensures { IsRefusal result }
{
    if error.kind() == io::ErrorKind::OutOfMemory {
        Status::OutOfMemory
    } else {
        Status::Usage
    }
}

/// The words after the program's name.
fn command_words<R: Env + Alloc<A = Global>>(rt: &R) -> io::Result<Vec<String>> {
    let mut words = Vec::new(rt.alloc());
    for word in env::args(rt)?.skip(1) {
        words.push(word)?;
    }
    Ok(words)
}

#[cfg(test)]
mod edges;
#[cfg(test)]
mod enclave_rows;
#[cfg(test)]
mod fault_rows;
#[cfg(test)]
mod guest_rows;
#[cfg(test)]
mod image_rows;
#[cfg(test)]
mod machine_rows;
#[cfg(test)]
mod refusal_rows;
#[cfg(test)]
mod rows;
#[cfg(test)]
mod tests;
#[cfg(test)]
mod trace_rows;
