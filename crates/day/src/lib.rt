// The day's report: each job of an input is run as if it were alone with the map, and the figures of all of them are given, with a tally by
// goal.
#![tactic(auto)]

mod host;

ghost use Rattle.day.specs.Host.{ReportsFor};
ghost use Rattle.jobs.specs.Report.{Reports};

pub use jobs::{Day, Status};
use map::Map;
use tally::Tally;

// The report of a day. The figures and the tallies are reckoned as plain numbers, and then put into the lent list of records.
pub fn report(input: &[u8], work: &mut [u32], sheet: &mut [u8], tally: &mut [Tally]) -> Day
    ensures { Reports input.now work.old sheet.old tally.old result
        work.new sheet.new tally.new }
{
    let mut routes = [0u32; Map::PLACES];
    let mut costs = [0u64; Map::PLACES];
    let r = jobs::reckon(input, work, sheet, tally.len(), &mut routes, &mut costs);
    tally::put(tally, &routes, &costs, r.records);
    r.day
}

// The call for a host: how the report ended comes back, and the figures are in the lent numbers.
pub fn r3_report(
    input: &[u8],
    work: &mut [u32],
    sheet: &mut [u8],
    tally: &mut [Tally],
    figures: &mut [u64],
) -> u32
    ensures { ReportsFor input.now work.old sheet.old tally.old figures.old result
        work.new sheet.new tally.new figures.new }
{
    let day = report(input, work, sheet, tally);
    host::tell(figures, day)
}
