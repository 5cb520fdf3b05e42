//! The benchmark: what a user of this software waits for, on inputs of real shape and size.
//!
//! It is called with the name of a workload and a seed, or with `quick` and a seed, which runs all of them on little. It reads no file
//! and writes none, and prints a digest of all that came of what was done, and no times. `workloads` has what is done, by the public
//! calls of the crates below (`jobs`), on inputs that the other modules make: `scripts` the letters, `tables`, `tailorings`,
//! `session_lines`, `sources`, `word_lists` and `awkward` the texts. `bench/run` times it.
#![tactic(auto)]

mod awkward;
mod digest;
mod jobs;
mod random;
mod scripts;
mod session_lines;
mod sources;
mod tables;
mod tailorings;
mod texts;
mod word_lists;
mod workloads;

use jobs::Jobs;
use std::alloc::AllocError;
use std::env;
use std::process::ExitCode;
use workloads::Scale;

// What all are called in a quick run.
const NAMES: &[&str] = &["build", "session", "review", "sort", "import", "awkward"];

fn main(rt: HostRuntime) -> ExitCode {
    let Ok(mut words) = env::args(&rt) else {
        return tell_usage(&rt);
    };
    let (name, seed) = (words.nth(1), words.next());
    drop(words);
    match (name, seed) {
        (Some(name), Some(seed)) => match seed.as_str().parse::<u32>() {
            Ok(seed) => run_named(&rt, name.as_str(), u64::from(seed)),
            Err(_) => tell_usage(&rt),
        },
        _ => tell_usage(&rt),
    }
}

// Runs a workload, or all of them on little.
fn run_named(rt: &HostRuntime, name: &str, seed: u64) -> ExitCode {
    if name != "quick" {
        return tell(rt, name, run(rt, name, seed, Scale::Full));
    }
    for name in NAMES {
        let ran = run(rt, *name, seed, Scale::Quick);
        let told = tell(rt, *name, ran);
        if told != ExitCode::SUCCESS {
            return told;
        }
    }
    ExitCode::SUCCESS
}

// Runs a workload, and answers its digest; none where there is no such workload.
fn run(rt: &HostRuntime, name: &str, seed: u64, scale: Scale) -> Result<Option<u64>, AllocError> {
    let mut jobs = Jobs::new(rt.alloc(), seed);
    match name {
        "build" => workloads::build(&mut jobs, seed, scale)?,
        "session" => workloads::session(&mut jobs, seed, scale)?,
        "review" => workloads::review(&mut jobs, seed, scale)?,
        "sort" => workloads::sort(&mut jobs, seed, scale)?,
        "import" => workloads::import(&mut jobs, seed, scale)?,
        "awkward" => workloads::awkward(&mut jobs, seed, scale)?,
        _ => return Ok(None),
    }
    Ok(Some(jobs.sum()))
}

// Prints the digest of a workload.
fn tell(rt: &HostRuntime, name: &str, ran: Result<Option<u64>, AllocError>) -> ExitCode {
    let told = match ran {
        Ok(Some(sum)) => println!(rt; "{name} {sum:016x}"),
        Ok(None) => return tell_usage(rt),
        Err(_) => return ExitCode::from(1),
    };
    match told {
        Ok(()) => ExitCode::SUCCESS,
        Err(_) => ExitCode::from(2),
    }
}

// Says how it is called.
fn tell_usage(rt: &HostRuntime) -> ExitCode {
    let _ = eprintln!(rt; "usage: coll_workloads NAME SEED, where NAME is a workload, or quick");
    ExitCode::from(2)
}
