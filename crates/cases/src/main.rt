// Program `cases`: stored cases on standard input, each through the whole call; on standard output how many were right and wrong, by group.
// tests/cases.py makes the stored file, and says what it holds.
#![tactic(auto)]

ghost use Rattle.std.specs.Prelude.{◌≤◌, length};

use answer::Answer;
use area::u32_at;
use std::io;
use std::io::Read;

// The largest case, and a bound on the number of cases.
const INPUT: usize = 524288;

const WORK: usize = 98400;

const SHEET: usize = 8300;

const CASES: u64 = 10000;

// The bytes of a case's numbers.
const FRONT: usize = 48;

const GROUPS: usize = 8;

const NAMES: [&str; GROUPS] = [
    "document 01",
    "refusals",
    "ends of ranges",
    "consistent estimates",
    "admissible estimates with gaps",
    "overstating estimates",
    "damaged inputs",
    "fewest places",
];

// A case's numbers: bytes of its input, words and bytes lent, the answer, and the work words that are 0 after the call.
#[derive(Clone, Copy)]
struct Case {
    group: usize,
    input: usize,
    words: usize,
    bytes: usize,
    answer: Answer,
    zeros: usize,
}

impl Case {
    // From the bytes of its numbers; a name of its own is as plain as an `impl From`.
    fn new(front: &[u8; FRONT]) -> Self {
        let answer = Answer {
            number: u32_at(front, 16),
            cost: u32_at(front, 20),
            limit: u32_at(front, 24),
            floor: u32_at(front, 28),
            expansions: u32_at(front, 32),
            queries: u32_at(front, 36),
            sheet_bytes: u32_at(front, 40),
        };
        Case {
            group: u32_at(front, 0) as usize,
            input: u32_at(front, 4) as usize,
            words: u32_at(front, 8) as usize,
            bytes: u32_at(front, 12) as usize,
            answer,
            zeros: u32_at(front, 44) as usize,
        }
    }
}

// A case that was run: its group, the answer's number as given and as expected, and whether all was right.
#[derive(Clone, Copy)]
struct Verdict {
    group: usize,
    given: u32,
    expected: u32,
    right: bool,
}

// A case that is cut short or too large.
#[derive(Drop)]
struct Unreadable;

// How many cases of a group were right, and how many wrong.
#[derive(Clone, Copy)]
struct Tally {
    right: u64,
    wrong: u64,
}

fn print_unreadable(rt: &HostRuntime, nth: u64) -> io::Result<()> {
    println!(rt; "case {nth}: cut short, too large, or one too many")
}

fn print_wrong(rt: &HostRuntime, nth: u64, given: u32, expected: u32) -> io::Result<()> {
    println!(rt; "case {nth}: number {given}, expected {expected}")
}

fn print_group(rt: &HostRuntime, name: &str, tally: Tally) -> io::Result<()> {
    let right = tally.right;
    let wrong = tally.wrong;
    println!(rt; "{name}: {right} right, {wrong} wrong")
}

// A line for each group.
fn print_groups(rt: &HostRuntime, tallies: &[Tally; GROUPS]) -> io::Result<()> {
    for (name, tally) in NAMES.iter().zip(tallies) {
        print_group(rt, name, *tally)?;
    }
    Ok(())
}

// Reads until room is full, the input ends or a read fails: how many bytes stand at its front then. `console::read_all` does not tell that
// of a read that fails, which here ends the file.
fn read_full(from: &mut io::Stdin, room: &mut [u8]) -> usize
    ensures { result ≤ length room.new }
{
    let mut done = 0;
    while done < room.len() {
        let Ok(more) = from.read(&mut room[done..]) else {
            return done;
        };
        if more == 0 {
            return done;
        }
        done += more;
    }
    done
}

// Reads so many bytes to the front of `room`, where it has as many, and so has what is left of the file.
fn read<'a>(
    from: &mut io::Stdin,
    room: &'a mut [u8],
    bytes: usize,
) -> Result<&'a [u8], Unreadable> {
    let front = room.get_mut(..bytes).ok_or(Unreadable)?;
    if read_full(from, front) < bytes {
        return Err(Unreadable);
    }
    Ok(front)
}

// The first `zeros` words become 0; each other gets a mark by its index, which is never 0.
fn mark_words(area: &mut [u32], zeros: usize) {
    for (i, word) in area.iter_mut().enumerate() {
        *word = if i < zeros { 0 } else { (i % 65521) as u32 + 1 };
    }
}

// Each byte gets a mark by its index.
fn mark_bytes(area: &mut [u8]) {
    for (i, byte) in area.iter_mut().enumerate() {
        *byte = (i % 251) as u8 + 1;
    }
}

// Puts down what the areas should hold after the call; the sheet comes next in the file.
fn put_expected(
    from: &mut io::Stdin,
    case: Case,
    work: &mut [u32],
    sheet: &mut [u8],
) -> Result<(), Unreadable> {
    mark_words(work, case.zeros);
    mark_bytes(sheet);
    read(from, sheet, case.answer.sheet_bytes as usize)?;
    Ok(())
}

// Calls with as much of the marked areas as the case lends.
fn call(case: Case, input: &[u8], work: &mut [u32], sheet: &mut [u8]) -> Answer
    requires { (case.words ≤ length work.old) × (case.bytes ≤ length sheet.old) }
{
    mark_words(work, 0);
    mark_bytes(sheet);
    router::route(input, &mut work[..case.words], &mut sheet[..case.bytes])
}

// Runs a case, whose input is read. The areas are compared whole, also beyond what is lent.
fn run(rt: &HostRuntime, case: Case, input: &[u8]) -> Result<Verdict, Unreadable> {
    if case.words > WORK || case.bytes > SHEET {
        return Err(Unreadable);
    }
    let mut expected_work = [0u32; WORK];
    let mut expected_sheet = [0u8; SHEET];
    put_expected(
        &mut rt.stdin(),
        case,
        &mut expected_work,
        &mut expected_sheet,
    )?;
    let mut work = [0u32; WORK];
    let mut sheet = [0u8; SHEET];
    let answer = call(case, input, &mut work, &mut sheet);
    Ok(Verdict {
        group: case.group,
        given: answer.number,
        expected: case.answer.number,
        right: answer == case.answer && work == expected_work && sheet == expected_sheet,
    })
}

// The numbers of the next case: `None` at the end of the file.
fn next(rt: &HostRuntime) -> Result<Option<Case>, Unreadable> {
    let mut front = [0u8; FRONT];
    let got = read_full(&mut rt.stdin(), &mut front);
    if got == 0 {
        return Ok(None);
    }
    if got < FRONT {
        return Err(Unreadable);
    }
    Ok(Some(Case::new(&front)))
}

// Reads the input of a case, for which there is room, and runs it.
fn run_next(rt: &HostRuntime, case: Case, room: &mut [u8]) -> Result<Verdict, Unreadable> {
    if case.group >= GROUPS {
        return Err(Unreadable);
    }
    let input = read(&mut rt.stdin(), room, case.input)?;
    run(rt, case, input)
}

fn count(tallies: &mut [Tally; GROUPS], verdict: Verdict) {
    if let Some(tally) = tallies.get_mut(verdict.group) {
        if verdict.right {
            tally.right = tally.right.wrapping_add(1);
        } else {
            tally.wrong = tally.wrong.wrapping_add(1);
        }
    }
}

// Runs every case to the end of the file. The room for their inputs is made at the first one, as a file without cases needs none.
fn run_all(rt: &HostRuntime, tallies: &mut [Tally; GROUPS]) -> io::Result<()> {
    let mut room = Vec::new(rt.alloc());
    for nth in 1..CASES {
        let case = match next(rt) {
            Ok(None) => return Ok(()),
            Err(Unreadable) => return print_unreadable(rt, nth),
            Ok(Some(case)) => case,
        };
        if room.is_empty() {
            room = vec![in rt.alloc(); 0u8; INPUT]?;
        }
        let Ok(verdict) = run_next(rt, case, &mut room) else {
            return print_unreadable(rt, nth);
        };
        if !verdict.right {
            print_wrong(rt, nth, verdict.given, verdict.expected)?;
        }
        count(tallies, verdict);
    }
    print_unreadable(rt, CASES)
}

fn main(rt: HostRuntime) -> io::Result<()> {
    let mut tallies = [Tally { right: 0, wrong: 0 }; GROUPS];
    run_all(&rt, &mut tallies)?;
    print_groups(&rt, &tallies)
}
