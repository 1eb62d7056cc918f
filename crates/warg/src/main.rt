//! The program: it runs the command that its words are, as [`warg_program::outcome`] tells, and says on standard error
//! why a run stopped.
#![tactic(auto)]

use std::env;
use std::io::{self, ErrorKind};
use std::process::ExitCode;
use std::rt::HostRuntime;
use warg_base::{Files, HostFiles, HostOut, Out};
use warg_program::{Stop, outcome, refuse};

/// The words that the program was given, without its own name.
fn words_of(rt: &HostRuntime) -> io::Result<Vec<String>> {
    let mut words = Vec::new(rt.alloc());
    for word in env::args(rt)?.skip(1) {
        words.push(word)?;
    }
    Ok(words)
}

/// Says on standard error why a run stopped, and gives the exit status.
fn stopped(rt: &HostRuntime, stop: Stop<'_>) -> ExitCode {
    // A cause that standard error doesn't take changes no status.
    let _ = eprintln!(rt; "warg: {stop}");
    let status = stop.status();
    // A call that is generic is proved once, and not for each of the hundred cases of a stop.
    drop(stop);
    ExitCode::from(status)
}

/// Says why the words could not be read.
fn unread<O: Out>(rt: &HostRuntime, error: &io::Error, out: &mut O) -> ExitCode {
    let stop = match error.kind() {
        ErrorKind::OutOfMemory => Stop::Memory,
        // A word that is no UTF-8 is none of the commands.
        _ => Stop::Usage,
    };
    refuse(rt.alloc(), out, &stop);
    stopped(rt, stop)
}

/// Does what the words ask for.
fn done<F: Files, O: Out>(
    rt: &HostRuntime,
    words: &[String],
    files: &mut F,
    out: &mut O,
) -> ExitCode {
    match outcome(rt.alloc(), words, files, out) {
        Ok(()) => ExitCode::SUCCESS,
        Err(stop) => stopped(rt, stop),
    }
}

fn main(rt: HostRuntime) -> ExitCode {
    let mut files = HostFiles::new(&rt);
    let mut out = HostOut::new(&rt);
    match words_of(&rt) {
        Ok(words) => done(&rt, &words, &mut files, &mut out),
        Err(error) => unread(&rt, &error, &mut out),
    }
}
