// The program: the real files and streams around the top call.
#![tactic(auto)]

mod progress;

use crate::progress::{AfterProgress, Progress};
use g4_ports::{Failure, FileShelf, OutSink};
use g4_tool::{Status, run};
use std::process::ExitCode;
use std::{env, io};

/// The words after the program's name.
fn words(rt: &HostRuntime) -> Result<Vec<String>, io::Error> {
    let mut args = env::args(rt)?;
    let _name = args.next();
    let words = args.collect(rt.alloc())?;
    Ok(words)
}

/// Says which file could not be read, and why.
fn report_failure(rt: &HostRuntime, failure: &Failure) -> io::Result<()> {
    let reason = failure.reason;
    match &failure.name {
        Some(name) => eprintln!(rt; "g4: {}: {reason}", name.as_str()),
        None => eprintln!(rt; "g4: {reason}"),
    }
}

fn main(rt: HostRuntime) -> ExitCode {
    let words = match words(&rt) {
        Ok(words) => words,
        Err(e) if e.kind() == io::ErrorKind::OutOfMemory => {
            let _said = eprintln!(rt; "g4: out of memory");
            return ExitCode::from(Status::NoMemory.number());
        }
        // Words that are not UTF-8 are no command. An empty list of words takes their place.
        Err(_) => Vec::new(rt.alloc()),
    };
    let mut shelf = FileShelf::new(&rt);
    let progress = Progress::new(&rt);
    let mut out = AfterProgress::new(OutSink::new(rt.stdout()), &progress);
    let mut err = AfterProgress::new(OutSink::new(rt.stderr()), &progress);
    let status = run(
        &rt,
        rt.alloc(),
        &words,
        &mut shelf,
        &mut out,
        &mut err,
        &progress,
    );
    progress.clear();
    // A run that ends without a line of its own says why. Where that cannot be written, only the status says so.
    let _said = match status {
        Status::Unread => match shelf.failure() {
            Some(failure) => report_failure(&rt, failure),
            None => Ok(()),
        },
        Status::Unwritten => match out.inner().failure().or(err.inner().failure()) {
            Some(reason) => eprintln!(rt; "g4: {reason}"),
            None => Ok(()),
        },
        Status::NoMemory => eprintln!(rt; "g4: out of memory"),
        _ => Ok(()),
    };
    ExitCode::from(status.number())
}
