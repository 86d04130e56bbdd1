// The jobs of a day, one after another, each alone with the map: the day's figures, and the tallies by goal, as plain numbers.
#![tactic(auto)]

mod entries;
mod figures;

ghost use Rattle.std.specs.Prelude.{◌≡◌};
ghost use Rattle.jobs.specs.Report.{without};
ghost use Rattle.jobs.specs.Steps.{Runnable, RecordRun, Startable, AllRun, Blank, Reckoned};

use answer::Answer;
use map::record::{Kind, Record};
use map::refusal::Refusal;
use map::walk::Records;
use map::{Map, number, record};

// How a report ended.
#[derive(Clone, Copy, Debug, PartialEq, Eq)]
pub enum Status {
    TooLong,
    ShortTally,
    Reported,
}

// The day's figures: how often each number was answered, the total and the largest cost of the routes, and the total of the expansions. All
// are 0 where there is no report: the report promises zeros then, beside the status.
#[derive(Clone, Copy, Debug, PartialEq, Eq)]
pub struct Day {
    pub status: Status,
    pub counts: [u32; number::END],
    pub cost: u64,
    pub largest: u32,
    pub expansions: u32,
}

// The longest input, and the most entries behind its map.
const INPUT: usize = 65536;

const ENTRIES: usize = 1000;

// The figures of a report, and how many records of the tally it sets, as `tally::put` takes it: none where it is refused.
#[derive(Clone, Copy, Debug, PartialEq, Eq)]
pub struct Reckoning {
    pub day: Day,
    pub records: usize,
}

// A record behind the map. A job is copied behind the map in the buffer, and routed; any other record is refused.
fn run_record(
    input: &[u8],
    map: usize,
    r: Record,
    buffer: &mut [u8],
    work: &mut [u32],
    sheet: &mut [u8],
) -> Answer
    requires { Runnable input.now map r buffer.old }
    ensures { RecordRun input.now map r buffer.old work.old sheet.old result
        buffer.new work.new sheet.new }
{
    if r.kind != Kind::Job as u16 {
        return answer::refused(Refusal::WrongJob.number());
    }
    let start = r.start - record::HEADER;
    let end = r.end;
    area::put_bytes(buffer, map, &input[start..end]);
    let stop = map + (end - start);
    router::route(&buffer[..stop], work, sheet)
}

// Runs all that stands behind a map of so many bytes, which the buffer holds at its front. What is lent comes slice by slice, as the caller
// has it and as the router's call takes it; one struct of it would be made here only to be taken apart.
fn run_all(
    input: &[u8],
    map: usize,
    buffer: &mut [u8],
    work: &mut [u32],
    sheet: &mut [u8],
    routes: &mut [u32],
    costs: &mut [u64],
) -> Day
    requires { Startable input.now map buffer.old routes.old costs.old }
    ensures { AllRun input.now work.old sheet.old result
        work.new sheet.new routes.new costs.new }
{
    let mut day = Day::without(Status::Reported);
    for record in Records::from(input, map) {
        match record {
            Ok(r) => {
                let a = run_record(input, map, r, buffer, work, sheet);
                figures::tally_answer(a, sheet, routes, costs);
                day.note(a);
            }
            Err(refusal) => day.note(answer::refused(refusal.number())),
        }
    }
    day
}

fn refused(status: Status) -> Reckoning
    ensures { (result.day ≡ without status) × (result.records ≡ 0) }
{
    Reckoning {
        day: Day::without(status),
        records: 0,
    }
}

// The whole report but for the tally's records, of which so many are lent.
pub fn reckon(
    input: &[u8],
    work: &mut [u32],
    sheet: &mut [u8],
    records: usize,
    routes: &mut [u32],
    costs: &mut [u64],
) -> Reckoning
    requires { Blank routes.old costs.old }
    ensures { Reckoned input.now work.old sheet.old records result
        work.new sheet.new routes.new costs.new }
{
    if INPUT < input.len() {
        return refused(Status::TooLong);
    }
    let map = entries::map_bytes(input);
    if ENTRIES < entries::count(input, map) {
        return refused(Status::TooLong);
    }
    if records < Map::PLACES {
        return refused(Status::ShortTally);
    }
    let mut buffer = [0u8; INPUT];
    area::put_bytes(&mut buffer, 0, &input[..map]);
    let day = run_all(input, map, &mut buffer, work, sheet, routes, costs);
    Reckoning {
        day,
        records: Map::PLACES,
    }
}
