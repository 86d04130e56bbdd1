// Program `write_map`: a map with its job on standard input, the same in its canonical form on standard output.
#![tactic(auto)]

ghost use Rattle.write_map.specs.Printed.{streams_of, answered, printed, Holds};

use arrayvec::ArrayVec;
use console::{INPUT, WORK};
use std::iter;

// Room for what standard error may have: a line of one number, 11 bytes and 1 more; `too long` takes less.
const LINE: usize = 11 + 1;

// A line for standard error.
type Line = ArrayVec<u8, LINE>;

// The written map of an input at the front of `out`, as many bytes as come back; or the line that has the number of its refusal.
fn put_written(input: &[u8], out: &mut [u8; INPUT]) -> Result<usize, Line>
    ensures { Holds (streams_of (answered input.now)) out.new result }
{
    let mut work = [0u32; WORK];
    let answer = map_writer::write(input, &mut work, out);
    if answer.number != 0 {
        let mut line = ArrayVec::new();
        text::push_line(&mut line, iter::once(u64::from(answer.number)));
        return Err(line);
    }
    Ok(answer.sheet_bytes as usize)
}

// All that the program prints of an input: so many first bytes of `out`, or a line for standard error.
fn texts_of(input: &[u8], out: &mut [u8; INPUT]) -> Result<usize, Line>
    ensures { Holds (printed input.now) out.new result }
{
    if INPUT < input.len() {
        let mut line = ArrayVec::new();
        text::push_bytes(&mut line, b"too long\n");
        return Err(line);
    }
    put_written(input, out)
}

// The text goes out by one call, and the other stream is left alone. What stands on standard output after a write that fails is the map's
// beginning, and no more follows.
fn reply(rt: &HostRuntime, input: &[u8]) {
    let mut out = [0u8; INPUT];
    match texts_of(input, &mut out) {
        Ok(bytes) => console::print(
            &rt.stdout(),
            &rt.stderr(),
            &out[..bytes],
            b"write_map: cannot write standard output\n",
        ),
        Err(line) => console::complain(&rt.stderr(), line.as_slice()),
    }
}

fn main(rt: HostRuntime) {
    let mut input = [0u8; INPUT + 1];
    match console::read_all(&mut rt.stdin(), &mut input) {
        Ok(bytes) => reply(&rt, &input[..bytes]),
        Err(_) => console::complain(&rt.stderr(), b"write_map: cannot read standard input\n"),
    }
}
