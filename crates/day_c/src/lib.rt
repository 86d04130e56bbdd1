// The export of the day's report for C: one call, under the symbol that host/r3.h declares.
#![tactic(auto)]

ghost use Rattle.day.specs.Host.{ReportsFor};

use tally::Tally;

// The call for a host: how the report ended comes back, and the figures are in the lent numbers.
#[unsafe(no_mangle)]
pub extern "C" fn r3_report(
    input: &[u8],
    work: &mut [u32],
    sheet: &mut [u8],
    tally: &mut [Tally],
    figures: &mut [u64],
) -> u32
    ensures { ReportsFor input.now work.old sheet.old tally.old figures.old result
        work.new sheet.new tally.new figures.new }
{
    day::r3_report(input, work, sheet, tally, figures)
}
