// What an answer adds to the day's figures, and a route to the tallies, as plain numbers.
ghost use Rattle.std.specs.Prelude.{◌≡◌};
ghost use Rattle.answer.specs.Numbers.{answer_of};
ghost use Rattle.jobs.specs.Report.{without};
ghost use Rattle.jobs.specs.Steps.{noted, Notable, Addable, Added, Talliable, Tallies};

use crate::{Day, Status};
use answer::Answer;
use map::number;

impl Day {
    // The figures before any answer.
    #[tactic(auto, unfolding(crate::specs::Report::without))]
    pub(crate) fn without(status: Status) -> Day
        ensures { result ≡ without status }
    {
        Day {
            status,
            counts: [0; number::END],
            cost: 0,
            largest: 0,
            expansions: 0,
        }
    }

    // Every answer is counted by its number. A route adds its cost and its expansions, and no route its expansions; nothing else does.
    #[tactic(auto, unfolding(crate::specs::Steps::noted))]
    pub(crate) fn note(&mut self, a: Answer)
        requires { Notable self.old (answer_of a) }
        ensures { self.new ≡ noted self.old (answer_of a) }
    {
        self.counts[a.number as usize] += 1;
        match a.number {
            number::FOUND => {
                self.cost += u64::from(a.cost);
                self.largest = self.largest.max(a.cost);
                self.expansions += a.expansions;
            }
            number::NO_ROUTE => self.expansions += a.expansions,
            _ => {}
        }
    }
}

// The tallies are two lists of plain numbers side by side, the core below the tally of records that the tally's promise names.
#[tactic(auto, unfolding(crate::specs::Steps::raised))]
fn add_route(routes: &mut [u32], costs: &mut [u64], goal: usize, cost: u32)
    requires { Addable routes.old costs.old goal cost }
    ensures { Added routes.old costs.old goal cost routes.new costs.new }
{
    routes[goal] += 1;
    costs[goal] += u64::from(cost);
}

// A route adds to the tally of the goal at its end, which is the last place on its sheet.
pub fn tally_answer(a: Answer, sheet: &[u8], routes: &mut [u32], costs: &mut [u64])
    requires { Talliable (answer_of a) sheet.now routes.old costs.old }
    ensures { Tallies (answer_of a) sheet.now routes.old costs.old routes.new costs.new }
{
    if a.number != number::FOUND {
        return;
    }
    let bytes = a.sheet_bytes as usize;
    let goal = usize::from(area::u16_at(sheet, bytes - 2));
    add_route(routes, costs, goal, a.cost);
}
