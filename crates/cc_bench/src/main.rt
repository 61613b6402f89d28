//! What is run by hand beside the product: timings of a node in memory, and of an engine over memory and over files, and a
//! node that writes in a folder until it is killed.
#![tactic(auto)]

mod bench_fault;
mod disk_bench;
mod engine_bench;
mod event_bench;
mod events;
mod writer;

use cc_site::MemorySite;
use disk_bench::{FOLDER, new_sides, plain_sync_nanoseconds, site_sync_nanoseconds};
use engine_bench::{EngineLoad, Hundredths, ROUND, SECOND, engine_times};
use event_bench::event_nanoseconds;
use events::Kind;
use std::fs;
use std::process::ExitCode;
use writer::write_on_folder;

const USAGE: &str = "\
usage: cc_bench events         how long a node in memory takes for an event
       cc_bench engine         how long the engine takes for a store, in memory and on files
       cc_bench write DIR      writes until it is killed, in a folder that
                               `ccnode format DIR 1 --initial 1` made";

// The command line isn't as it should be.
const BAD_COMMAND_LINE: u8 = 2;

// How many stores of the engine are timed at most, where few rows make them short, and where many make them long.
const SHORT_STORES: u64 = 102_400;

const LONG_STORES: u64 = 25_600;

fn main(rt: HostRuntime) -> anyhow::Result<ExitCode> {
    let words: Vec<String> = std::env::args(&rt)?.collect(rt.alloc())?;
    let (word, folder) = (word_at(&words, 1), word_at(&words, 2));
    if !obey(&rt, word, folder)? {
        println!(rt; "{USAGE}")?;
        return Ok(ExitCode::from(BAD_COMMAND_LINE));
    }
    Ok(ExitCode::SUCCESS)
}

// A word of the command line. Empty where there is none.
fn word_at(words: &[String], place: usize) -> &str {
    match words.get(place) {
        Some(word) => word.as_str(),
        None => "",
    }
}

// Does what the words of a command line ask for. False where they ask for nothing that there is.
fn obey(rt: &HostRuntime, word: &str, folder: &str) -> anyhow::Result<bool> {
    match word {
        "events" => print_times(rt)?,
        "engine" => print_engine_times(rt)?,
        "write" => write_on_folder(rt, folder)?,
        _ => return Ok(false),
    }
    Ok(true)
}

// For stores and queries, in clusters of 16 and of 256 nodes, in a short history and in a long one.
fn print_times(rt: &HostRuntime) -> anyhow::Result<()> {
    for nodes in [16, 256] {
        for count in [10_000, 100_000] {
            let store = event_nanoseconds(rt, rt.alloc(), nodes, Kind::Store, count)?;
            let query = event_nanoseconds(rt, rt.alloc(), nodes, Kind::Query, count)?;
            println!(rt; "{nodes} nodes, {count} events: a store {store} ns, a query {query} ns")?;
        }
    }
    Ok(())
}

// For views of 1, 16 and 256 rows and batches of 1 and 8 stores and of as many as they have at most, in memory and on
// the disk.
fn print_engine_times(rt: &HostRuntime) -> anyhow::Result<()> {
    fs::create_dir_all(rt, FOLDER)?;
    let outcome = print_engine_table(rt);
    fs::remove_dir_all(rt, FOLDER)?;
    outcome
}

fn print_engine_table(rt: &HostRuntime) -> anyhow::Result<()> {
    let sync = plain_sync_nanoseconds(rt)?.max(1);
    let plain = SECOND / sync;
    let through = SECOND / site_sync_nanoseconds(rt)?.max(1);
    println!(rt; "syncs a second: {plain} by a plain loop, {through} through a site of two files")?;
    println!(rt; "the engine, each store in a batch:")?;
    for nodes in [1, 16, 256] {
        // A record doesn't take 64 stores of 256 rows.
        let (stores, most) = match nodes {
            256 => (LONG_STORES, 32),
            _ => (SHORT_STORES, 64),
        };
        let rounds = stores / ROUND;
        for batch in [1, 8, most] {
            let load = EngineLoad {
                nodes,
                batch,
                rounds,
            };
            print_engine_row(rt, sync, load)?;
        }
    }
    Ok(())
}

// What a store takes over a site in memory, which keeps no output, and over two files; and that beside its share of the
// two syncs of its batch.
fn print_engine_row(rt: &HostRuntime, sync: u128, load: EngineLoad) -> anyhow::Result<()> {
    let alloc = rt.alloc();
    let EngineLoad { nodes, batch, .. } = load;
    let memory = engine_times(rt, alloc, MemorySite::new(alloc, 0)?, load)?;
    let files = engine_times(rt, alloc, new_sides(rt)?, load)?;
    let beside = Hundredths(files.elapsed.saturating_mul(batch as u128 * 50) / sync.max(1));
    println!(rt;
        "{nodes} rows, batches of {batch}: in memory {memory}; on files {files}, {beside} of its syncs"
    )?;
    Ok(())
}
