// What the programs share: the sizes of their memory, reading to the end, failing aloud. Each has a `main` and a `reply` of its own, a few
// lines that differ in their texts and complaints.
//
// A program's exit status is 0 whatever it met. A read that a signal interrupts before it moves a byte counts as failed, like any other
// that fails; such a write is tried again.
#![tactic(auto)]

ghost use Rattle.std.specs.Prelude.{IfOk};
ghost use Rattle.io.specs.Counts.{IsPrefixLen};

use map::Map;
use std::io;
use std::io::{Print, Read};

// The longest input, and the words that are lent to the call for work, as document 01 has them.
pub const INPUT: usize = 65536;

pub const WORK: usize = 16384;

// The bytes that are lent for the sheet: as many as the largest map asks for.
pub const SHEET: usize = Map::SHEET_BYTES;

// Reads until the input ends or buf is full: how many bytes stand at its front then. What came before a read that fails is not told, since
// it is no whole input.
pub fn read_all<R: Read>(from: &mut R, buf: &mut [u8]) -> io::Result<usize>
    ensures { IfOk result (λ n. IsPrefixLen n buf.new) }
{
    let mut done = 0;
    while done < buf.len() {
        let more = from.read(&mut buf[done..])?;
        if more == 0 {
            break;
        }
        done += more;
    }
    Ok(done)
}

// One line on standard error. Where that fails too, there is nowhere left to say so. No clause here or below, since std says nothing of
// what stands in a stream after a write that fails.
pub fn complain<E: Print>(err: &E, line: &[u8]) {
    let _ = err.write_all(line);
}

// All of a text on standard output, or the complaint on standard error.
pub fn print<O: Print, E: Print>(out: &O, err: &E, text: &[u8], complaint: &[u8]) {
    if out.write_all(text).is_err() {
        complain(err, complaint);
    }
}
