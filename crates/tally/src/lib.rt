// The per-goal tally: a lent list of records with three numbers each. Records are made of plain numbers here, and the numbers are reckoned
// elsewhere.
#![tactic(auto)]

ghost use Rattle.std.specs.Prelude.{◌≡◌};
ghost use Rattle.tally.specs.Tallied.{Puttable, put_to};

// A goal, the routes that end there, and their cost.
#[repr(C)]
#[derive(Clone, Copy, Debug, PartialEq, Eq)]
pub struct Tally {
    pub goal: u32,
    pub routes: u32,
    pub cost: u64,
}

// Record g, for each g below n, holds g with the routes and the cost that stand at g in the lists; later records stay.
pub fn put(tally: &mut [Tally], routes: &[u32], costs: &[u64], n: usize)
    requires { Puttable n tally.old routes.now costs.now }
    ensures { tally.new ≡ put_to n routes.now costs.now tally.old }
{
    for g in 0..n {
        tally[g] = Tally {
            goal: g as u32,
            routes: routes[g],
            cost: costs[g],
        };
    }
}
