//! The folder of real files that the engine is timed on, and how fast its disk syncs.

use crate::bench_fault::BenchFault;
use cc_site::{FileSite, NoOutlet, Side, write_durably};
use std::fs;
use std::fs::{File, Files};
use std::io::Write;
use std::time::{Clock, Duration, Instant};

/// The folder, which is made in the working directory.
pub const FOLDER: &str = "bench-sides";

// What is written before each sync that is timed.
const WRITTEN: &[u8; 8] = b"dichaqos";

// How many syncs are timed at most.
const SYNCS: u64 = 2_000;

// After so many seconds no further sync begins.
const LONG_ENOUGH: u64 = 2;

/// A site of two new files in the folder, which must exist. What was in the folder is removed.
pub fn new_sides<R: Files<File = File> + AllocGlobal>(
    rt: &R,
) -> Result<FileSite<NoOutlet>, BenchFault> {
    fs::remove_dir_all(rt, FOLDER)?;
    fs::create_dir(rt, FOLDER)?;
    Ok(FileSite::open(rt, rt.alloc(), FOLDER, NoOutlet)?)
}

// The mean of so many, in nanoseconds.
fn mean(spent: Duration, count: u64) -> u128 {
    spent.as_nanos() / u128::from(count.max(1))
}

/// The nanoseconds that a sync of a file's data in the folder takes after eight bytes were written at its end, with that
/// write.
pub fn plain_sync_nanoseconds<R: Files<File = File> + Clock>(rt: &R) -> Result<u128, BenchFault> {
    let mut file = File::create(rt, "bench-sides/synced")?;
    let nanoseconds = time_plain_syncs(rt, &mut file);
    drop(file);
    nanoseconds
}

fn time_plain_syncs<R: Clock>(rt: &R, file: &mut File) -> Result<u128, BenchFault> {
    let start = Instant::now(rt)?;
    for before in 0..SYNCS {
        file.write_all(WRITTEN)?;
        file.sync_data()?;
        let spent = start.elapsed(rt)?;
        if spent.as_secs() >= LONG_ENOUGH {
            return Ok(mean(spent, before + 1));
        }
    }
    Ok(mean(start.elapsed(rt)?, SYNCS))
}

/// The same through a site of two new files.
pub fn site_sync_nanoseconds<R: Files<File = File> + AllocGlobal + Clock>(
    rt: &R,
) -> Result<u128, BenchFault> {
    let mut site = new_sides(rt)?;
    let nanoseconds = time_syncs(rt, &mut site);
    drop(site);
    nanoseconds
}

fn time_syncs<R: Clock>(rt: &R, site: &mut FileSite<NoOutlet>) -> Result<u128, BenchFault> {
    let start = Instant::now(rt)?;
    for before in 0..SYNCS {
        write_durably(site, Side::A, before.saturating_mul(8), WRITTEN)?;
        let spent = start.elapsed(rt)?;
        if spent.as_secs() >= LONG_ENOUGH {
            return Ok(mean(spent, before + 1));
        }
    }
    Ok(mean(start.elapsed(rt)?, SYNCS))
}
