// A report as a host gets it: how it ended as one number, and the figures as a list.
ghost use Rattle.std.specs.Prelude.{◌≡◌};
ghost use Rattle.day.specs.Host.{status_number, figures_of, Told};

use jobs::{Day, Status};
use map::number;
use map::refusal::Refusal;

// No answer has this number.
const TOO_LONG: u32 = 255;

// Total cost, largest cost and total expansions come before the counts by number.
const TOTALS: usize = 3;

const FIGURES: usize = TOTALS + number::END;

// This is no `From`: a status is of crate jobs, and a host's numbers are of this one.
#[tactic(auto, unfolding(crate::specs::Host::status_number))]
fn status_number(status: Status) -> u32
    ensures { result ≡ status_number status }
{
    match status {
        Status::TooLong => TOO_LONG,
        Status::ShortTally => Refusal::ShortSheet.number(),
        Status::Reported => number::FOUND,
    }
}

fn figures_of(day: Day) -> [u64; FIGURES]
    ensures { result ≡ figures_of day }
{
    let mut figures = [0u64; FIGURES];
    figures[0] = day.cost;
    figures[1] = u64::from(day.largest);
    figures[2] = u64::from(day.expansions);
    for (n, count) in day.counts.iter().enumerate() {
        figures[TOTALS + n] = u64::from(*count);
    }
    figures
}

pub fn tell(figures: &mut [u64], day: Day) -> u32
    ensures { Told day figures.old result figures.new }
{
    answer::put_front(figures, &figures_of(day));
    status_number(day.status)
}
