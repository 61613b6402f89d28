//! The command line of a node of a store-collect cluster: it plays scripts over clusters in memory, formats the folder of
//! a node, runs it over TCP, asks one that runs, measures how quickly nodes answer, and tells what stands in a folder.
#![tactic(auto)]

mod run;

use cc_command_line::{LogLevel, Order, RunWords, parse};
use cc_subcommands::{
    BAD_COMMAND_LINE, Lines, NotingRuntime, StandIns, ask, dump, format, leave, load, play_input,
    retire, share, status,
};
use run::run;
use std::process::ExitCode;

fn main(rt: HostRuntime) -> anyhow::Result<ExitCode> {
    let stand_ins = StandIns::open(&rt)?;
    let words: Vec<String> = std::env::args(&rt)?.collect(rt.alloc())?;
    let status = match parse(rt.alloc(), &words) {
        Ok(Order::Run { folder, words }) => {
            let lines = Lines::start(&rt, rt.alloc())?;
            let has_times = !is_for_journal(&rt);
            let machine = NotingRuntime::new(&rt, &lines, level_of(&words), has_times);
            let status = run(&rt, &machine, folder, &words);
            drop(machine);
            lines.end(&rt);
            drop(lines);
            status
        }
        Ok(Order::Load(words)) => load(&rt, &words),
        Ok(order) => obey(&rt, order),
        Err(error) => print_error(&rt, &error),
    };
    drop(stand_ins);
    status
}

// How much is noted. A word that names no level is told later, as the other words are.
fn level_of(words: &RunWords<'_>) -> LogLevel {
    match words.log {
        Some(word) => LogLevel::named(word).unwrap_or(LogLevel::Info),
        None => LogLevel::Info,
    }
}

// Whether a journal reads standard error, which has the time of each line by itself: systemd sets the variable then.
fn is_for_journal(rt: &HostRuntime) -> bool {
    std::env::var(rt, "JOURNAL_STREAM").is_ok()
}

// Does what needs no threads.
fn obey(rt: &HostRuntime, order: Order<'_>) -> anyhow::Result<ExitCode> {
    match order {
        Order::Format { folder, words } => format(rt, folder, &words),
        Order::Ask(words) => ask(rt, &words),
        Order::Leave { address } => leave(rt, address),
        Order::Retire(words) => retire(rt, &words),
        Order::Share {
            address,
            share: number,
        } => share(rt, address, number),
        Order::Status {
            address,
            form,
            watches,
        } => status(rt, address, form, watches),
        Order::Dump { folder, tells_node } => dump(rt, folder, tells_node),
        Order::Play | Order::Run { .. } | Order::Load(_) => play_input(rt),
    }
}

// Prints the help that was asked for, or what is wrong with the command line.
fn print_error(rt: &HostRuntime, error: &clap::Error) -> anyhow::Result<ExitCode> {
    error.print(rt)?;
    let is_help = error.exit_code() == 0;
    Ok(ExitCode::from(if is_help { 0 } else { BAD_COMMAND_LINE }))
}
