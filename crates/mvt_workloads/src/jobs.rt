//! The jobs, by the public calls that users wait for.

use crate::digest::Digest;
use crate::message::Message;
use crate::random::Random;
use crate::{awkward, cache, tiles};
use mvt_io::Host;
use mvt_rows::{read_rows, write_rows};
use mvt_tasks::{Reply, Task, answer};
use mvt_tile::{decode, encode, judge, rewrite};
use std::alloc::{AllocError, Global};

/// What is done with each tile.
#[derive(Clone, Copy, PartialEq, Eq)]
pub enum Job {
    /// It is judged.
    Judge,
    /// It is checked, as the command `check` does.
    Check,
    /// It is made canonical.
    Rewrite,
    /// It is read as rows, and these are written.
    Rows,
    /// It is shown and drawn, as the commands `show` and `draw` do.
    Show,
    /// It is awkward, and is judged, read and written as a value, rewritten, and checked.
    Awkward,
    /// It stands in a cache, and is checked and rewritten.
    Cache,
}

impl Job {
    pub fn named(name: &str) -> Option<Job> {
        match name {
            "judge" => Some(Job::Judge),
            "check" => Some(Job::Check),
            "rewrite" => Some(Job::Rewrite),
            "rows" => Some(Job::Rows),
            "show" => Some(Job::Show),
            "awkward" => Some(Job::Awkward),
            "cache" => Some(Job::Cache),
            _ => None,
        }
    }

    /// The tiles that it is done on.
    pub fn make_tiles(
        self,
        alloc: Global,
        random: &mut Random,
    ) -> Result<Vec<Message>, AllocError> {
        match self {
            Job::Awkward => awkward::make_tiles(alloc, random),
            Job::Cache => cache::make_tiles(alloc, random),
            _ => tiles::make_tiles(alloc, random),
        }
    }
}

/// Does a job on a tile, and mixes what it gives into the digest.
pub fn run_job(
    alloc: Global,
    job: Job,
    tile: &[u8],
    digest: &mut Digest,
) -> Result<(), AllocError> {
    match job {
        Job::Judge => judged(alloc, tile, digest),
        Job::Check => replied(alloc, Task::Check, tile, digest),
        Job::Rewrite => rewritten(alloc, tile, digest),
        Job::Rows => passed_by_rows(alloc, tile, digest),
        Job::Show => {
            replied(alloc, Task::Show, tile, digest);
            replied(alloc, Task::Draw, tile, digest);
        }
        Job::Awkward => {
            judged(alloc, tile, digest);
            passed_by_value(alloc, tile, digest);
            passed_by_rows(alloc, tile, digest);
            rewritten(alloc, tile, digest);
            replied(alloc, Task::Check, tile, digest);
        }
        Job::Cache => {
            replied(alloc, Task::Check, tile, digest);
            rewritten(alloc, tile, digest);
        }
    }
    Ok(())
}

fn judged(alloc: Global, tile: &[u8], digest: &mut Digest) {
    match judge(alloc, tile) {
        Ok(()) => digest.add_number(0),
        Err(error) => digest.add_error(error),
    }
}

fn rewritten(alloc: Global, tile: &[u8], digest: &mut Digest) {
    match rewrite(alloc, tile) {
        Ok(Some(bytes)) => digest.add_bytes(&bytes),
        Ok(None) => digest.add_number(0),
        Err(error) => digest.add_error(error),
    }
}

fn passed_by_value(alloc: Global, tile: &[u8], digest: &mut Digest) {
    match decode(alloc, tile) {
        Ok(value) => match encode(alloc, &value) {
            Ok(bytes) => digest.add_bytes(&bytes),
            Err(_) => digest.add_number(0),
        },
        Err(error) => digest.add_error(error),
    }
}

/// The lists of rows last until whoever has them frees them, so each tile's stay until the end.
fn passed_by_rows(alloc: Global, tile: &[u8], digest: &mut Digest) {
    match read_rows(alloc, tile) {
        Ok(table) => match write_rows(alloc, &table.leak()) {
            Ok(bytes) => digest.add_bytes(&bytes),
            Err(_) => digest.add_number(0),
        },
        Err(error) => digest.add_error(error),
    }
}

fn replied(alloc: Global, task: Task, tile: &[u8], digest: &mut Digest) {
    let mut reader = Host::new(tile);
    match answer(alloc, task, &mut reader) {
        Ok(
            Reply {
                output,
                error_line,
                ..
            },
        ) => {
            if let Some(bytes) = output {
                digest.add_bytes(bytes.as_slice());
            }
            if let Some(line) = error_line {
                digest.add_bytes(line.as_str().as_bytes());
            }
        }
        Err(failure) => digest.add_number(u64::from(failure.status())),
    }
}
