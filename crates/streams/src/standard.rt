// Standard input and output, and what is said on standard error where they fail: in the words that a program lends, since they name it.
ghost use Rattle.std.specs.Prelude.{length, IsTrue, IsFalse, OnOk};
ghost use Rattle.std.specs.Io.KnownBytes.{Appends, Keeps};
ghost use Rattle.streams.specs.Told.Told.{Within, CameIn};

use crate::reason::Reason;
use std::env::{Env, FillError};
use std::io;
use std::io::{Read, Write};

// Reads to the end of the input, or until the lent bytes are full: how many bytes came in.
pub fn read_all<R: Read>(input: &mut R, text: &mut [u8]) -> io::Result<usize>
    ensures within { Within (length text.old) result }
    ensures bytes { CameIn (R.remaining input.old) (R.remaining input.new) text.new result }
{
    let mut n: usize = 0;
    // Only a read says how many bytes came in.
    while n < text.len() {
        let more = input.read(&mut text[n..])?;
        if more == 0 {
            return Ok(n);
        }
        n += more;
    }
    Ok(n)
}

// Writes all of the bytes, or stops at the first write that fails or takes nothing. By its own loop: the library's `write_all` makes a write that
// was interrupted again and again, and has other words for a write that takes nothing.
fn write_whole<W: Write>(out: &mut W, bytes: &[u8]) -> io::Result<()>
    ensures { OnOk result (Appends (W.contents out.old) (W.contents out.new) bytes.now) }
{
    let mut done: usize = 0;
    // Only a write says how many bytes it took.
    while done < bytes.len() {
        let more = out.write(&bytes[done..])?;
        if more == 0 {
            return Err(io::Error::from(io::ErrorKind::WriteZero));
        }
        done = done + more;
    }
    Ok(())
}

// Writes a line: what failed, as the caller names it, a colon and the system's words for why. Where that fails too, nobody is left to tell.
fn say_failed(said: &mut impl Write, name: &[u8], error: io::Error) {
    let reason = Reason::of(error);
    let _named = write_whole(said, name).is_ok();
    let _parted = write_whole(said, b": ").is_ok();
    let _told = write_whole(said, reason.words()).is_ok();
    let _ended = write_whole(said, b"\n").is_ok();
}

// Says of the input with this name why a read failed.
pub fn read_failed(said: &mut impl Write, input: &[u8], error: io::Error) {
    say_failed(said, input, error);
}

// Prints a block, or says of the output with this name why it cannot.
pub fn print<W: Write, S: Write>(out: &mut W, said: &mut S, block: &[u8], output: &[u8]) -> bool
    ensures whole { IsTrue result → Appends (W.contents out.old) (W.contents out.new) block.now }
    ensures silent { IsTrue result → Keeps (S.contents said.old) (S.contents said.new) }
{
    match write_whole(out, block) {
        Ok(()) => true,
        Err(error) => {
            say_failed(said, output, error);
            false
        }
    }
}

// Whether there were arguments, which no program takes: the line of its usage is then said.
pub fn has_arguments<S: Write>(env: &impl Env, said: &mut S, usage: &[u8]) -> bool
    ensures { IsFalse result → Keeps (S.contents said.old) (S.contents said.new) }
{
    let mut first = [0u8; 1];
    match env.arg(1, &mut first) {
        Err(FillError::NotPresent) => false,
        _ => {
            let _said = write_whole(said, usage).is_ok();
            true
        }
    }
}
