//! The benchmark: `wm_bench JOB SEED ROUNDS [FILE]` does a job on inputs that the seed determines, and prints a digest
//! of all answers. FILE, or standard input, has the stock of modules that inputs are made of. The job `awkward` reads
//! none. `all` does each job.
//!
//! This is no part of `wmod`, and no function has a contract. `bench/workloads.txt` has the command lines.
#![tactic(auto)]

mod answers;
mod awkward;
mod binary;
mod digest;
mod jobs;
mod random;
mod stock;
mod texts;

use jobs::{Bench, JOBS, Job};
use std::io::{ErrorKind, Read};
use std::rt::Env;
use std::{env, fs, io};
use stock::read_stock;

fn wrong_words() -> io::Error {
    io::Error::from(ErrorKind::InvalidInput)
}

fn name(job: Job) -> &'static str {
    match job {
        Job::Check => "check",
        Job::Small => "small",
        Job::Canon => "canon",
        Job::Show => "show",
        Job::Build => "build",
        Job::Awkward => "awkward",
    }
}

/// Does one job, and prints its digest.
fn run<R: Input + Print + AllocGlobal>(
    rt: &R,
    job: Job,
    seed: u64,
    rounds: usize,
    stock: &[u8],
) -> io::Result<()> {
    let mut bench = Bench::new(rt.alloc(), seed);
    let mut stock = read_stock(rt.alloc(), stock)?;
    bench.run(job, &mut stock, rounds)?;
    let name = name(job);
    let digest = bench.digest.value();
    let refused = bench.digest.refused;
    println!(rt; "{name} {digest:016x}, {refused} refused")
}

fn number(word: Option<&String>) -> io::Result<u64> {
    match word.map(|word| word.as_str().parse::<u64>()) {
        Some(Ok(number)) => Ok(number),
        _ => Err(wrong_words()),
    }
}

fn read_input<R: Input + AllocGlobal>(rt: &R) -> io::Result<Vec<u8>> {
    let mut bytes = Vec::new(rt.alloc());
    rt.reader().read_to_end(&mut bytes)?;
    Ok(bytes)
}

fn main(rt: HostRuntime) -> io::Result<()> {
    let words = env::args(&rt)?.collect::<Vec<String>>(rt.alloc())?;
    let Some(wanted) = words.get(1) else {
        return Err(wrong_words());
    };
    let seed = number(words.get(2))?;
    let rounds = number(words.get(3))? as usize;
    let stock = match words.get(4) {
        Some(path) => fs::read(&rt, path.as_str())?,
        None if wanted.as_str() == "awkward" => Vec::new(rt.alloc()),
        None => read_input(&rt)?,
    };
    for job in JOBS {
        if wanted.as_str() == "all" || wanted.as_str() == name(job) {
            run(&rt, job, seed, rounds, &stock)?;
        }
    }
    Ok(())
}
