// Lines of numbers as bytes, one after another: `put_..` writes them into a lent text from a position on, and gives back the position after
// them; `push_..` puts them at the end of a text of fixed room.
#![tactic(auto)]

ghost use Rattle.std.specs.Prelude.{◌≡◌, ◌+◌, ◌-◌, ◌*◌, ◌<◌, ◌≤◌, [], ◌∷◌, ◌++◌, length};
ghost use Rattle.std.specs.Iterator.{IsFinite};
ghost use Rattle.std.specs.Iterator.Runs.{EachRunFrom, WholeRun};
ghost use Rattle.arrayvec.specs.ArrayVec.{array_vec_len};
ghost use Rattle.text.specs.Text.{decimal, in_line, line, Put};

use arrayvec::ArrayVec;

const BLANK: u8 = b' ';

const LINE_FEED: u8 = b'\n';

// Bytes as they are, such as a fixed word.
pub fn put_bytes(text: &mut [u8], at: usize, bytes: &[u8]) -> usize
    requires { at + length bytes.now ≤ length text.old }
    ensures { Put bytes.now at text.old text.new result }
{
    text[at..at + bytes.len()].copy_from_slice(bytes);
    at + bytes.len()
}

// A number in decimal.
fn put_number(text: &mut [u8], at: usize, x: u64) -> usize
    requires { at + length (decimal x) ≤ length text.old }
    ensures { Put (decimal x) at text.old text.new result }
{
    let mut digits = [0u8; 20];
    let count = io::decimal(x, &mut digits);
    put_bytes(text, at, &digits[..count])
}

// Number i of a line: its digits and 1 byte more have room for it.
fn put_in_line(text: &mut [u8], at: usize, i: usize, x: u64) -> usize
    requires { at + length (decimal x) + 1 ≤ length text.old }
    ensures { Put (in_line i x) at text.old text.new result }
{
    if i == 0 {
        return put_number(text, at, x);
    }
    let next = put_bytes(text, at, &[BLANK]);
    put_number(text, next, x)
}

// A line of numbers: 11 bytes a number and 1 more have room for it.
pub fn put_line(text: &mut [u8], at: usize, numbers: &[u32]) -> usize
    requires { at + 11 * length numbers.now + 1 ≤ length text.old }
    ensures { Put (line numbers.now) at text.old text.new result }
{
    let mut end = at;
    for (i, x) in numbers.iter().enumerate() {
        end = put_in_line(text, end, i, u64::from(*x));
    }
    put_bytes(text, end, &[LINE_FEED])
}

// A line of numbers of 64 bits: 21 bytes a number and 1 more have room for it.
pub fn put_wide_line(text: &mut [u8], at: usize, numbers: &[u64]) -> usize
    requires { at + 21 * length numbers.now + 1 ≤ length text.old }
    ensures { Put (line numbers.now) at text.old text.new result }
{
    let mut end = at;
    for (i, x) in numbers.iter().enumerate() {
        end = put_in_line(text, end, i, *x);
    }
    put_bytes(text, end, &[LINE_FEED])
}

// Bytes as they are, such as a fixed word. There is room, so the library never refuses them.
pub fn push_bytes<const N: usize>(text: &mut ArrayVec<u8, N>, bytes: &[u8])
    requires { array_vec_len text.old + length bytes.now ≤ N }
    ensures { text.new.items ≡ text.old.items ++ bytes.now }
{
    let _ = text.try_extend_from_slice(bytes);
}

// A number in decimal.
fn push_number<const N: usize>(text: &mut ArrayVec<u8, N>, x: u64)
    requires { array_vec_len text.old + length (decimal x) ≤ N }
    ensures { text.new.items ≡ text.old.items ++ decimal x }
{
    let mut digits = [0u8; 20];
    let count = io::decimal(x, &mut digits);
    push_bytes(text, &digits[..count]);
}

// One number more of the line that begins at `from`: a blank parts it from the one before.
fn push_in_line<const N: usize>(text: &mut ArrayVec<u8, N>, from: usize, x: u64)
    requires { array_vec_len text.old + length (in_line (array_vec_len text.old - from) x) ≤ N }
    ensures { text.new.items ≡ text.old.items ++ in_line (array_vec_len text.old - from) x }
{
    if from < text.len() {
        text.push(BLANK);
    }
    push_number(text, x);
}

// A line of numbers, for which there is room.
pub fn push_line<const N: usize, I: Iterator<Item = u64> + Drop>(
    text: &mut ArrayVec<u8, N>,
    numbers: I,
)
    requires can { I.can_next numbers }
    requires ends { IsFinite (I.remaining numbers) }
    requires room { EachRunFrom I.next_gives numbers (λ p. array_vec_len text.old + length (line p.items) ≤ N) }
    ensures { WholeRun I.next_gives numbers (λ p. text.new.items ≡ text.old.items ++ line p.items) }
{
    let from = text.len();
    for x in numbers {
        push_in_line(text, from, x);
    }
    text.push(LINE_FEED);
}
