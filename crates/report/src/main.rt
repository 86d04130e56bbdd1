// Program `report`: a map and the jobs of a day on standard input, the day's figures on standard output.
#![tactic(auto)]

ghost use Rattle.std.specs.Prelude.{◌≡◌, ◌+◌, ◌*◌, ◌≤◌, [], ◌++◌, length, replicate};
ghost use Rattle.arrayvec.specs.ArrayVec.{array_vec_len};
ghost use Rattle.model.specs.Limits.{max_places};
ghost use Rattle.jobs.specs.Report.{numbers, report};
ghost use Rattle.report.specs.Printed.{count_line, count_lines, figures_line, goal_line, goal_lines, day_text, text_of, no_tally, Prints};
ghost use Rattle.report.specs.Printed.{count_room, wide_room, day_room, text_room, PutWithin};

use arrayvec::ArrayVec;
use console::{INPUT, SHEET, WORK};
use day::{Day, Status};
use map::refusal::Refusal;
use map::{Map, number};
use std::iter;
use tally::Tally;

// Room for a line of a number and its count, and for one of three numbers of 64 bits: 11 and 21 bytes a number, and 1 more.
const COUNT_LINE: usize = 11 * 2 + 1;

const WIDE_LINE: usize = 21 * 3 + 1;

// Room for a line for each answer number, the line of the figures, and a line for each goal.
const TEXT: usize = COUNT_LINE * number::END + WIDE_LINE + WIDE_LINE * Map::PLACES;

type Text = ArrayVec<u8, TEXT>;

// A number that was answered, and how often.
fn put_count(text: &mut Text, number: u32, count: u32)
    requires { array_vec_len text.old + count_room ≤ text_room }
    ensures { PutWithin count_room (count_line number count) text.old.items text.new.items }
{
    if count != 0 {
        text::push_line(text, [number, count].into_iter().map(u64::from));
    }
}

// The counts by number; `as`, since no `From` takes an index to 32 bits.
fn put_counts(text: &mut Text, counts: &[u32])
    requires { (array_vec_len text.old + count_room * length counts.now ≤ text_room) × (length counts.now ≤ numbers) }
    ensures { PutWithin (count_room * length counts.now) (count_lines 0 counts.now) text.old.items text.new.items }
{
    for (n, count) in counts.iter().enumerate() {
        put_count(text, n as u32, *count);
    }
}

fn put_figures(text: &mut Text, day: Day)
    requires { array_vec_len text.old + wide_room ≤ text_room }
    ensures { PutWithin wide_room (figures_line day) text.old.items text.new.items }
{
    let figures = [day.cost, u64::from(day.largest), u64::from(day.expansions)];
    text::push_line(text, figures.into_iter());
}

// All that stands before the goals.
fn put_day(text: &mut Text, day: Day)
    requires { array_vec_len text.old + day_room ≤ text_room }
    ensures { PutWithin day_room (day_text day.status day) text.old.items text.new.items }
{
    match day.status {
        Status::TooLong => text::push_bytes(text, b"too long\n"),
        Status::ShortTally => text::push_line(
            text,
            iter::once(u64::from(Refusal::ShortSheet.number())),
        ),
        Status::Reported => {
            put_counts(text, &day.counts);
            put_figures(text, day);
        }
    }
}

// A goal that was reached.
fn put_goal(text: &mut Text, t: Tally)
    requires { array_vec_len text.old + wide_room ≤ text_room }
    ensures { PutWithin wide_room (goal_line t) text.old.items text.new.items }
{
    if t.routes != 0 {
        let numbers = [u64::from(t.goal), u64::from(t.routes), t.cost];
        text::push_line(text, numbers.into_iter());
    }
}

// The goals of a tally that were reached.
fn put_goals(text: &mut Text, tally: &[Tally])
    requires { array_vec_len text.old + wide_room * length tally.now ≤ text_room }
    ensures { text.new.items ≡ text.old.items ++ goal_lines tally.now }
{
    for t in tally {
        put_goal(text, *t);
    }
}

// All that is printed of an input.
fn put_report(text: &mut Text, input: &[u8], work: &mut [u32], sheet: &mut [u8])
    requires { text.old.items ≡ [] }
    ensures { text.new.items ≡ text_of (report input.now work.old sheet.old (replicate max_places no_tally)) }
{
    let mut tally = [Tally {
        goal: 0,
        routes: 0,
        cost: 0,
    }; Map::PLACES];
    let day = day::report(input, work, sheet, &mut tally);
    put_day(text, day);
    put_goals(text, &tally);
}

// All that the program prints of an input, into an empty text.
fn text_of(input: &[u8], text: &mut Text)
    requires { text.old.items ≡ [] }
    ensures { Prints input.now text.new.items }
{
    let mut work = [0u32; WORK];
    let mut sheet = [0u8; SHEET];
    put_report(text, input, &mut work, &mut sheet);
}

// The text goes out by one call, which ends at the first write that fails: what stands there then is the text's beginning, and no more follows.
fn reply(rt: &HostRuntime, input: &[u8]) {
    let mut text = ArrayVec::new();
    text_of(input, &mut text);
    console::print(
        &rt.stdout(),
        &rt.stderr(),
        text.as_slice(),
        b"report: cannot write standard output\n",
    );
}

fn main(rt: HostRuntime) {
    let mut input = [0u8; INPUT + 1];
    match console::read_all(&mut rt.stdin(), &mut input) {
        Ok(bytes) => reply(&rt, &input[..bytes]),
        Err(_) => console::complain(&rt.stderr(), b"report: cannot read standard input\n"),
    }
}
