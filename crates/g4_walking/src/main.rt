//! Walks along a store that has learned its paths, with their times. Without words it makes a small round and gives no times.
#![tactic(auto)]

mod failure;
mod numbers;
mod opening;
mod rounds;
mod table;
mod walking;

use crate::failure::Failure;
use crate::opening::open;
use crate::rounds::measure;
use std::alloc::Global;
use std::process::ExitCode;
use std::sync::Wait;
use std::thread::Threads;
use std::time::Clock;
use std::{env, io};

/// How many columns a walk has, and how many rounds are made, of which the fastest counts.
const STEPS: usize = 10_000_000;

const ROUNDS: u32 = 20;

/// The same where no times are asked for.
const FEW_STEPS: usize = 10_000;

const FEW_ROUNDS: u32 = 2;

/// The word after the program's name.
fn task(rt: &HostRuntime) -> Result<Option<String>, io::Error> {
    let mut words = env::args(rt)?;
    let _name = words.next();
    Ok(words.next())
}

/// Carries out the task, and prints what it gave.
fn run<R: Threads + Wait + Clock + Print + Sync>(
    rt: &R,
    alloc: Global,
    task: Option<String>,
) -> Result<(), Failure> {
    match task.as_ref().map(|word| word.as_str()) {
        Some("walk") => {
            let times = measure(rt, alloc, STEPS, ROUNDS)?;
            println!(rt;
                "walk {} loop {} together {}",
                times.walk, times.plain, times.together
            )?;
        }
        Some("open") => println!(rt; "words {}", open(alloc)?)?,
        _ => {
            measure(rt, alloc, FEW_STEPS, FEW_ROUNDS)?;
            println!(rt; "each walk went to its last column")?;
        }
    }
    Ok(())
}

fn main(rt: HostRuntime) -> ExitCode {
    let done = match task(&rt) {
        Ok(task) => run(&rt, rt.alloc(), task),
        Err(_) => Err(Failure::System),
    };
    match done {
        Ok(()) => ExitCode::SUCCESS,
        Err(failure) => {
            let _said = eprintln!(rt; "g4_walking: {}", failure.text());
            ExitCode::FAILURE
        }
    }
}
