// The judgement of an input: the refusal of the lowest number whose condition holds, or what its records state.
ghost use Rattle.std.specs.Prelude.{◌≡◌, ltb};
ghost use Rattle.judge.specs.Judge.{Judged};
ghost use Rattle.map.specs.Refusals.{number_of};
ghost use Rattle.judge.specs.Numbers.{number_given};
ghost use Rattle.judge.specs.Verdict.{goals_wrong, goals_number, Formed, RightMap, RightFactors, OneJob};

use crate::survey::Survey;
use crate::{factors, goals, survey, waits};
use map::refusal::Refusal;
use map::{Job, Map, Site, record};

// The growth of a map without a record for it.
const GROWTH: u32 = 2;

fn wrong_goals(count: usize, falls: bool) -> bool
    ensures { result ≡ goals_wrong count falls }
{
    (count < 1) | (Map::GOALS < count) | falls
}

// The first of 11 to 13 that holds.
fn judge_goals(outside: bool, wrong: bool, estimated: bool) -> Result<(), Refusal>
    ensures { number_given result ≡ goals_number outside wrong estimated }
{
    if outside {
        return Err(Refusal::JobOutsideMap);
    }
    if wrong {
        return Err(Refusal::WrongGoals);
    }
    if estimated {
        return Err(Refusal::GoalEstimate);
    }
    Ok(())
}

// Judges the one job of an input.
fn judge_job(input: &[u8], s: Survey, marks: &[u8; Map::PLACES]) -> Result<Job, Refusal>
    requires { OneJob input.now marks.now s }
    ensures { Judged input.now result }
{
    let job = s.job;
    let g = goals::of(input, job.goals_at, job.goals, s.places, marks);
    let outside = (s.places <= job.start as usize) | g.outside;
    judge_goals(outside, wrong_goals(job.goals, g.falls), g.estimated)?;
    let site = Site {
        places: s.places,
        arcs: s.arcs,
        start: job.start,
        growth: GROWTH,
    };
    Ok(Job::new(
        site,
        job.allowance,
        job.goals,
        job.goals_at,
        s.factors_at,
        s.default,
    ))
}

// Judges an input whose records have none of the numbers 1 to 9, 20 and 22, and whose factors these are.
fn judge_costs(
    input: &[u8],
    s: Survey,
    marks: &[u8; Map::PLACES],
    factors: &[u32; Map::CLASS + 1],
) -> Result<Job, Refusal>
    requires { RightFactors input.now marks.now s factors.now }
    ensures { Judged input.now result }
{
    if waits::wrong(input, s.waits, factors) {
        return Err(Refusal::WrongWait);
    }
    if (s.jobs != 1) | !s.job_last {
        return Err(Refusal::WrongJob);
    }
    judge_job(input, s, marks)
}

// Judges an input whose records have none of the numbers 1 to 9 and 20.
fn judge_factors(input: &[u8], s: Survey, marks: &[u8; Map::PLACES]) -> Result<Job, Refusal>
    requires { RightMap input.now marks.now s }
    ensures { Judged input.now result }
{
    let factors = record::factors(input, s.factors_at);
    if (1 < s.tables) | factors::break_rules(&factors) {
        return Err(Refusal::WrongFactors);
    }
    judge_costs(input, s, marks, &factors)
}

// Judges an input whose records have none of the numbers 1 to 4.
fn judge_map(input: &[u8], s: Survey, marks: &[u8; Map::PLACES]) -> Result<Job, Refusal>
    requires { Formed input.now marks.now s }
    ensures { Judged input.now result }
{
    let map = Map::new(s.places, s.arcs).ok_or(Refusal::WrongSize)?;
    if map.arcs != s.lanes {
        return Err(Refusal::WrongSize);
    }
    if let Some(refusal) = s.refusal {
        return Err(refusal);
    }
    judge_factors(input, s, marks)
}

// The numbers 1 to 4.
fn is_of_form(refusal: Refusal) -> bool
    ensures { result ≡ ltb (number_of refusal) 5 }
{
    matches!(
        refusal,
        Refusal::Broken | Refusal::UnknownKind | Refusal::WrongLength | Refusal::WrongHead
    )
}

pub fn judge(input: &[u8]) -> Result<Job, Refusal>
    ensures { Judged input.now result }
{
    let mut marks = [0u8; Map::PLACES];
    let s = survey::of(input, &mut marks);
    match s.refusal {
        Some(refusal) if is_of_form(refusal) => Err(refusal),
        _ => judge_map(input, s, &marks),
    }
}
