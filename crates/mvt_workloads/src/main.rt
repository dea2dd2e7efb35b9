//! The jobs that `bench/run.py` times: mvt_workloads JOB SEED ROUNDS. It makes tiles by a seed,
//! does the job on each of them in so many rounds, and prints a digest of all results. Between two
//! rounds the tiles change, so no call is made twice on one input.
#![tactic(auto)]

mod awkward;
mod cache;
mod digest;
mod features;
mod jobs;
mod layers;
mod message;
mod random;
mod tiles;

use digest::Digest;
use jobs::{Job, run_job};
use message::Message;
use random::Random;
use std::alloc::{AllocError, Global};
use std::{env, io};

/// What a line of words asks for.
#[derive(Clone, Copy)]
struct Order {
    job: Job,
    seed: u32,
    rounds: u32,
}

/// The order that these words give, the first of which is the program's name.
fn order_of(words: &[String]) -> Option<Order> {
    let job = Job::named(words.get(1)?.as_str())?;
    let seed = words.get(2)?.as_str().parse().ok()?;
    let rounds = words.get(3)?.as_str().parse().ok()?;
    Some(Order { job, seed, rounds })
}

/// The digest of what the job gives for each tile of each round.
fn digest_of(alloc: Global, order: Order) -> Result<u64, AllocError> {
    let mut random = Random::new(u64::from(order.seed));
    let mut tiles = order.job.make_tiles(alloc, &mut random)?;
    let mut digest = Digest::new();
    for _ in 0..order.rounds {
        run_round(alloc, order.job, &mut tiles, &mut random, &mut digest)?;
    }
    Ok(digest.value())
}

fn run_round(
    alloc: Global,
    job: Job,
    tiles: &mut [Message],
    random: &mut Random,
    digest: &mut Digest,
) -> Result<(), AllocError> {
    for tile in tiles {
        tile.vary(random);
        run_job(alloc, job, tile.bytes(), digest)?;
    }
    Ok(())
}

fn main(rt: HostRuntime) -> io::Result<()> {
    let words = env::args(&rt)?.collect::<Vec<_>>(rt.alloc())?;
    let Some(order) = order_of(&words) else {
        println!(rt;
            "usage: mvt_workloads judge|check|rewrite|rows|show|awkward|cache SEED ROUNDS"
        )?;
        return Ok(());
    };
    match digest_of(rt.alloc(), order) {
        Ok(digest) => println!(rt; "{digest:x}")?,
        Err(AllocError) => println!(rt; "out of memory")?,
    }
    Ok(())
}
