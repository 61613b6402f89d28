//! A player of scripts.

use crate::cluster::{Cluster, Played};
use crate::play_fault::PlayFault;
use crate::script;
use std::alloc::Global;
use std::io::{Read, Write};

const MAX_LINE_BYTES: usize = 4096;

const MAX_LINES: u64 = 10_000;

// The script was played to its end.
const GOOD: u8 = 0;

// A bad line or a fault of a node ended it.
const REFUSED: u8 = 1;

/// Plays a script over a cluster in memory, and prints what happens. The answer is the status to end with: 0, or 1
/// after a bad line or a fault of a node.
pub fn play<R: Read, W: Write>(
    alloc: Global,
    input: &mut R,
    output: &mut W,
) -> Result<u8, PlayFault> {
    let mut player = Player::new(alloc)?;
    let mut chunk = [0; MAX_LINE_BYTES];
    for _ in 0..u64::MAX {
        let count = input.read(&mut chunk).map_err(|_| PlayFault::Read)?;
        if count == 0 {
            break;
        }
        for byte in &chunk[..count] {
            if player.take(*byte, output)? != Played::Good {
                return player.end(REFUSED, output);
            }
        }
    }
    if player.has_line() && player.finish_line(output)? != Played::Good {
        return player.end(REFUSED, output);
    }
    player.end(GOOD, output)
}

/// The script so far.
#[derive(Drop)]
struct Player {
    alloc: Global,
    cluster: Cluster,
    // The bytes of the line that is being read.
    line: Vec<u8>,
    // How many lines were finished.
    lines: u64,
}

impl Player {
    fn new(alloc: Global) -> Result<Self, PlayFault> {
        Ok(Player {
            alloc,
            cluster: Cluster::new(alloc),
            line: Vec::with_capacity(alloc, MAX_LINE_BYTES)?,
            lines: 0,
        })
    }

    fn has_line(&self) -> bool {
        !self.line.is_empty()
    }

    fn take<W: Write>(&mut self, byte: u8, output: &mut W) -> Result<Played, PlayFault> {
        if byte == b'\n' {
            return self.finish_line(output);
        }
        if self.line.len() == MAX_LINE_BYTES {
            return self.bad_line(output);
        }
        self.line.push(byte)?;
        Ok(Played::Good)
    }

    fn finish_line<W: Write>(&mut self, output: &mut W) -> Result<Played, PlayFault> {
        if self.lines >= MAX_LINES {
            return self.bad_line(output);
        }
        let Some(line) = script::parse(self.alloc, &self.line)? else {
            return self.bad_line(output);
        };
        match self.cluster.play(self.alloc, line, output)? {
            Played::Bad => return self.bad_line(output),
            Played::Ended => return Ok(Played::Ended),
            Played::Good => {}
        }
        self.line.clear();
        self.lines = self.lines.saturating_add(1);
        Ok(Played::Good)
    }

    fn bad_line<W: Write>(&mut self, output: &mut W) -> Result<Played, PlayFault> {
        let number = self.lines.saturating_add(1);
        writeln!(output, "line {number}: bad")?;
        Ok(Played::Bad)
    }

    fn end<W: Write>(self, status: u8, output: &mut W) -> Result<u8, PlayFault> {
        output.flush()?;
        Ok(status)
    }
}
