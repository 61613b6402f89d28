//! Reads and writes at a place of a file. No byte is asked for twice, also where a signal came.

ghost use Rattle.std.specs.Prelude.{◌≡◌, length};

use std::io;
use std::io::ErrorKind;
use std::os::unix::fs::FileExt;

/// Fills a buffer with what lies from a place on, in bytes. It ends where a call fails, with that call's error, or where one
/// gives nothing too early, with `UnexpectedEof`.
pub fn read_whole<F: FileExt>(file: &F, place: u64, into: &mut [u8]) -> io::Result<()>
    ensures { length into.new ≡ length into.old }
{
    let mut done = 0;
    for _ in 0..u64::MAX {
        if done >= into.len() {
            return Ok(());
        }
        match file.read_at(&mut into[done..], place.wrapping_add(done as u64)) {
            Ok(count) if count > 0 => done += count,
            Ok(_) => break,
            Err(error) => return Err(error),
        }
    }
    Err(ErrorKind::UnexpectedEof.into())
}

/// Writes bytes from a place on. It ends where a call fails, with that call's error, or where one takes nothing, with
/// `WriteZero`.
pub fn write_whole<F: FileExt>(file: &F, place: u64, bytes: &[u8]) -> io::Result<()> {
    let mut done = 0;
    for _ in 0..u64::MAX {
        if done >= bytes.len() {
            return Ok(());
        }
        match file.write_at(&bytes[done..], place.wrapping_add(done as u64)) {
            Ok(count) if count > 0 => done += count,
            Ok(_) => break,
            Err(error) => return Err(error),
        }
    }
    Err(ErrorKind::WriteZero.into())
}
