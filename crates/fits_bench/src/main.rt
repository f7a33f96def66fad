//! Runs the jobs that users of `fitsed` wait for, over files that it makes in memory, and prints a
//! digest of what they printed and saved: the workloads of bench/workloads.txt.
#![tactic(auto)]

mod awkward;
mod cards;
mod digest;
mod files;
mod logs;
mod memory;
mod mosaics;
mod noise;
mod planes;
mod runs;
mod template;
mod text;

use awkward::take_awkward;
use logs::edit_logs;
use mosaics::{check_incoming, correct_mosaics};
use noise::Noise;
use planes::{change_large_images, mask_pixels};
use runs::Outcome;
use std::alloc::Global;
use std::process::ExitCode;
use std::{env, io};

// Does a job, so many rounds of it.
fn job(alloc: Global, name: &str, rounds: usize, noise: &mut Noise) -> io::Result<Option<Outcome>> {
    let outcome = match name {
        "incoming" => check_incoming(alloc, rounds, noise)?,
        "mosaics" => correct_mosaics(alloc, rounds, noise)?,
        "logs" => edit_logs(alloc, rounds, noise)?,
        "pixels" => mask_pixels(alloc, rounds, noise)?,
        "images" => change_large_images(alloc, rounds, noise)?,
        "awkward" => take_awkward(alloc, rounds, noise)?,
        _ => return Ok(None),
    };
    Ok(Some(outcome))
}

// Does the job of these words: its name, how many rounds, and a seed.
fn run(alloc: Global, words: &[String]) -> io::Result<Option<Outcome>> {
    let [name, rounds, seed] = words else {
        return Ok(None);
    };
    let (Ok(rounds), Ok(seed)) = (rounds.as_str().parse::<u32>(), seed.as_str().parse::<u64>())
    else {
        return Ok(None);
    };
    job(alloc, name, rounds as usize, &mut Noise::new(seed))
}

fn main(rt: HostRuntime) -> io::Result<ExitCode> {
    let mut words: Vec<String> = env::args(&rt)?.collect(rt.alloc())?;
    if !words.is_empty() {
        words.remove(0);
    }
    let Some(outcome) = run(rt.alloc(), &words)? else {
        eprintln!(rt; "usage: fits_bench JOB ROUNDS SEED")?;
        return Ok(ExitCode::from(2));
    };
    let (runs, bytes, digest) = (outcome.runs, outcome.bytes, outcome.digest);
    println!(rt; "{runs} runs, {bytes} bytes, digest {digest:016x}")?;
    Ok(ExitCode::SUCCESS)
}
