// The budgeted search over a map in the work area: queries in rounds, with low, high and a budget, until a goal is found, none can be,
// or the allowance is spent.
#![tactic(auto)]

ghost use Rattle.std.specs.Prelude.{◌≡◌, ◌^◌, ◌<◌};
ghost use Rattle.model.specs.Rounds.{limit_of};
ghost use Rattle.layout.specs.Map.{Holds};
ghost use Rattle.search.specs.Rounds.{Searched, high_of};
ghost use Rattle.search.specs.Underway.{BudgetFits, NextRound, BudgetFitsAfter, RoundAfter, GoalLabelled, Parented};

use map::Site;
use query::Outcome;

// The round's record, made anew as each query ends, with that query's outcome.
#[derive(Clone, Copy)]
pub struct Round {
    pub low: u32,
    pub high: Option<u32>,
    pub budget: u32,
    pub outcome: Outcome,
}

// How a search ends: cut by the allowance, with no goal, or at one.
#[derive(Clone, Copy)]
pub enum Verdict {
    Spent(CutShort),
    NoRoute(NoGoal),
    Routed(Reached),
}

#[derive(Clone, Copy)]
pub struct CutShort {
    pub floor: u32,
    pub expansions: u32,
    pub queries: u32,
}

#[derive(Clone, Copy)]
pub struct NoGoal {
    pub limit: u32,
    pub expansions: u32,
    pub queries: u32,
}

#[derive(Clone, Copy)]
pub struct Reached {
    pub cost: u32,
    pub goal: u32,
    pub limit: u32,
    pub expansions: u32,
    pub queries: u32,
}

// The limit of the next query.
#[tactic(auto, unfolding(model::specs::Rounds::limit_of))]
fn limit_of(low: u32, high: Option<u32>) -> u32
    requires { limit_of low (high_of high) < 2 ^ 30 }
    ensures { result ≡ limit_of low (high_of high) }
{
    match high {
        None => 2 * low,
        Some(high) => (low + high) / 2,
    }
}

// The next round's record: where low equals high the round closes, the budget grows and high is unset.
#[tactic(auto, unfolding(model::specs::Rounds::settle, model::specs::Rounds::close_if))]
fn settle(round: Round, growth: u32) -> Round
    requires { BudgetFits growth round }
    ensures { NextRound growth round result }
{
    if round.high == Some(round.low) {
        return Round {
            high: None,
            budget: growth * round.budget,
            ..round
        };
    }
    round
}

// The record that a query leaves. Ended sets low to its number, over sets high to the limit; found and none finish the search.
#[tactic(auto, unfolding(model::specs::Rounds::after))]
fn after(round: Round, growth: u32, limit: u32, outcome: Outcome) -> Round
    requires { BudgetFitsAfter round growth limit outcome }
    ensures { RoundAfter round growth limit outcome result }
{
    let same = Round { outcome, ..round };
    match outcome {
        Outcome::Ended(next) => settle(Round { low: next, ..same }, growth),
        Outcome::Over => settle(
            Round {
                high: Some(limit),
                ..same
            },
            growth,
        ),
        Outcome::Found | Outcome::None => same,
    }
}

// The goals at the cost of the first one, which ended the query, are compared; the parents lead back from the one that comes first.
fn found(
    work: &mut [u32],
    site: Site,
    first: u32,
    limit: u32,
    expansions: u32,
    queries: u32,
) -> Verdict
    requires { GoalLabelled site first work.old }
    ensures { Parented site first limit expansions queries work.old work.new result }
{
    let cost = layout::label(work, first as usize);
    let goal = scans::nearest_goal(work, site, first);
    scans::parents(work, site);
    Verdict::Routed(Reached {
        cost,
        goal,
        limit,
        expansions,
        queries,
    })
}

pub fn search(work: &mut [u32], site: Site, allowance: u32) -> Verdict
    requires { Holds site work.old }
    ensures { Searched site allowance work.old work.new result }
{
    query::prepare(work, site);
    // No query yet; its outcome is read by nobody.
    let mut round = Round {
        low: layout::estimate(work, site.places, site.start as usize),
        high: None,
        budget: 1,
        outcome: Outcome::Over,
    };
    let mut expansions = 0;
    let mut queries = 0;
    loop {
        let limit = limit_of(round.low, round.high);
        queries += 1;
        let Ok(asked) = query::query(work, site, limit, round.budget, allowance - expansions) else {
            // The query has counted all that was left.
            return Verdict::Spent(CutShort {
                floor: round.low,
                expansions: allowance,
                queries,
            });
        };
        expansions += asked.count;
        round = after(round, site.growth, limit, asked.outcome);
        match round.outcome {
            Outcome::Found => return found(work, site, asked.place, limit, expansions, queries),
            Outcome::None => {
                return Verdict::NoRoute(NoGoal {
                    limit,
                    expansions,
                    queries,
                });
            }
            Outcome::Ended(_) | Outcome::Over => {}
        }
    }
}
