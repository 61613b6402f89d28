//! Plays the scripts of its data folder, tells which of them don't print what stands there, and then what it finds in that
//! folder's nodes of earlier releases. Its words are a chapter and a case of it, which it plays alone, or `folders`.
#![tactic(auto)]

mod among;
mod cases;
mod chapter_lines;
mod comparison;
mod crashes;
mod folders;
mod player;

use cases::Case;
use comparison::{Wrong, two_values};
use folders::print_folders;
use player::check;
use std::fs;
use std::process::ExitCode;

// The files of the data folder, without their ending.
const CHAPTERS: [&str; 21] = [
    "clusters",
    "after_a_store",
    "crashes",
    "limits",
    "lines",
    "objects",
    "retirements",
    "standing",
    "bad_lines",
    "absent",
    "absent_entrants",
    "absent_full",
    "anew",
    "snapshots",
    "skips",
    "rounds",
    "reshare",
    "long_rounds",
    "cluster_rounds",
    "five_nodes",
    "wrong",
];

// Two values of number 1 of node 1, in a message and in an answer.
const TWO_VALUES: &str = "\
1 send 2 4 EnterEcho [1,2] [1] [] [1:1=a/0/0/] 1 2
2 reply 7 1 Seen [1:1=b/0/0/,2:1=a/0/0/]
";

fn main(rt: HostRuntime) -> anyhow::Result<ExitCode> {
    let words: Vec<String> = std::env::args(&rt)?.collect(rt.alloc())?;
    let (chapter, name) = (word_at(&words, 1), word_at(&words, 2));
    if let Some(row) = two_values(rt.alloc(), TWO_VALUES)? {
        println!(rt; "two values of a row are told: {row}")?;
    }
    let count = play_chapters(&rt, chapter, name)?;
    println!(rt; "{count} scripts as written")?;
    if is_asked(chapter, "folders") {
        print_folders(&rt)?;
    }
    Ok(ExitCode::SUCCESS)
}

// A word of the command line. Empty where there is none.
fn word_at(words: &[String], place: usize) -> &str {
    match words.get(place) {
        Some(word) => word.as_str(),
        None => "",
    }
}

// An empty word asks for all.
fn is_asked(word: &str, name: &str) -> bool {
    word.is_empty() || word == name
}

// How many scripts did what is written.
fn play_chapters(rt: &HostRuntime, chapter: &str, name: &str) -> anyhow::Result<u32> {
    let mut count: u32 = 0;
    for &each in &CHAPTERS {
        if is_asked(chapter, each) {
            count = count.saturating_add(play_chapter(rt, each, name)?);
        }
    }
    Ok(count)
}

fn play_chapter(rt: &HostRuntime, chapter: &str, name: &str) -> anyhow::Result<u32> {
    let path = format!(in rt.alloc(); "{chapter}.txt")?;
    let text = fs::read_to_string(rt, path.as_str())?;
    let count = play_cases(rt, chapter, &text, name)?;
    println!(rt; "{chapter}: {count} scripts as written")?;
    Ok(count)
}

// Before the first case stands what the chapter is about.
fn play_cases(rt: &HostRuntime, chapter: &str, text: &str, name: &str) -> anyhow::Result<u32> {
    let mut count: u32 = 0;
    for (place, part) in text.split("\n== ").enumerate() {
        if place > 0 {
            count = count.saturating_add(play_part(rt, chapter, part, name)?);
        }
    }
    Ok(count)
}

fn play_part(rt: &HostRuntime, chapter: &str, part: &str, name: &str) -> anyhow::Result<u32> {
    match Case::parse(part) {
        Some(case) if is_asked(name, case.name) => play_case(rt, chapter, &case),
        Some(_) => Ok(0),
        None => {
            println!(rt; "{chapter}: a case has no script, or doesn't say what that prints")?;
            Ok(0)
        }
    }
}

fn play_case(rt: &HostRuntime, chapter: &str, case: &Case<'_>) -> anyhow::Result<u32> {
    let mut count: u32 = 0;
    for line in case.lines.split('\n') {
        match check(rt.alloc(), case, line)? {
            Ok(scripts) => count = count.saturating_add(scripts),
            Err(wrong) => tell(rt, chapter, case.name, line, wrong)?,
        }
    }
    Ok(count)
}

fn tell(
    rt: &HostRuntime,
    chapter: &str,
    name: &str,
    line: &str,
    wrong: Wrong,
) -> anyhow::Result<()> {
    if line.is_empty() {
        println!(rt; "{chapter} {name}: {wrong}")?;
    } else {
        println!(rt; "{chapter} {name}, {line}: {wrong}")?;
    }
    Ok(())
}
