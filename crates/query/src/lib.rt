// One query: a uniform-cost search within a limit, which counts the places that it expands.
#![tactic(auto)]

ghost use Rattle.std.specs.Prelude.{◌≡◌};
ghost use Rattle.layout.specs.Regions.{HasPlace};
ghost use Rattle.scans.specs.Area.{Listed};
ghost use Rattle.query.specs.Query.{Preparable, Prepared, Askable, Answered};
ghost use Rattle.query.specs.State.{Clears, Blank, Arrives, Arrived, less_deep, Settles, Settled};
ghost use Rattle.query.specs.State.{Relaxes, ByArc, Relaxed, Expands, RowRelaxed, AllSettled};

use map::Site;

// How a query ends: by a number above the limit, by its budget, at a goal, or with nothing left to reach.
#[derive(Clone, Copy)]
pub enum Outcome {
    Ended(u32),
    Over,
    Found,
    None,
}

// What a query gives that the allowance lasts for: its outcome, and the places that it expanded.
#[derive(Clone, Copy)]
pub struct Asked {
    pub outcome: Outcome,
    pub count: u32,
    // The goal, where one is found. It stands here since document 01's found has no value, and a round's record carries the outcome so.
    pub place: u32,
}

// What is left of the allowance does not last for the query, which has counted all of it.
#[derive(Clone, Copy)]
pub struct Spent;

// Clears the words of the open list, once before all queries. Each query leaves them ready for the next.
pub fn prepare(work: &mut [u32], site: Site)
    requires { Preparable site.places work.old }
    ensures { Prepared site.places work.old work.new }
{
    let n = site.places;
    let start = layout::open_at(n);
    let end = layout::parents_at(n);
    open_list::clear(&mut work[start..end], n);
}

// No place has a label, and none is open.
fn clear(work: &mut [u32], n: usize)
    requires { Clears n work.old }
    ensures { Blank n work.old work.new }
{
    layout::clear_labels(work, n);
    let start = layout::open_at(n);
    let end = layout::parents_at(n);
    open_list::reset(&mut work[start..end], n);
}

// Place v is reached at cost d, which is below its label, along k arcs.
fn arrive(work: &mut [u32], n: usize, hand: u64, v: usize, d: u32, k: u32) -> u64
    requires { Arrives n hand v d work.old }
    ensures { Arrived n v d k hand work.old result work.new }
{
    layout::set_label(work, v, d);
    layout::set_depth(work, n, v, k);
    let start = layout::open_at(n);
    let end = layout::parents_at(n);
    open_list::lower(&mut work[start..end], n, hand, v, d)
}

// Place v is to be expanded, as number `count`: it is listed, and no longer open. The list lies where the parents will: these are found
// after the last query.
fn settle(work: &mut [u32], n: usize, hand: u64, count: u32, v: usize) -> u64
    requires { Settles n hand count v work.old }
    ensures { Settled n count v hand work.old result work.new }
{
    layout::set_parent(work, n, count as usize, v as u32);
    let start = layout::open_at(n);
    let end = layout::parents_at(n);
    open_list::close(&mut work[start..end], n, hand, v)
}

// Place v is reached again at the cost of its label, along k arcs. Nothing moves in the open list.
fn arrive_again(work: &mut [u32], n: usize, v: usize, k: u32)
    requires { HasPlace n v work.old }
    ensures { work.new ≡ less_deep n v k work.old }
{
    if k < layout::depth(work, n, v) {
        layout::set_depth(work, n, v, k);
    }
}

// The arc with the word x, from a place that is expanded at cost d; it makes k arcs from the start.
fn relax(work: &mut [u32], n: usize, hand: u64, limit: u32, d: u32, k: u32, x: u32) -> u64
    requires { Relaxes n hand d x work.old }
    ensures { Relaxed n (ByArc n limit d x work.old) k hand work.old result work.new }
{
    let v = layout::arc_end(x);
    let e = d + layout::arc_cost(x);
    let label = layout::label(work, v);
    if label < e {
        return hand;
    }
    if limit < e + layout::estimate(work, n, v) {
        return hand;
    }
    if label == e {
        arrive_again(work, n, v, k);
        return hand;
    }
    arrive(work, n, hand, v, e, k)
}

// Relaxes the arcs of u, which is expanded at cost d.
fn expand(work: &mut [u32], site: Site, mut hand: u64, limit: u32, u: usize, d: u32) -> u64
    requires { Expands site hand u d work.old }
    ensures { RowRelaxed site limit u d hand work.old result work.new }
{
    let n = site.places;
    let k = layout::depth(work, n, u) + 1;
    for j in layout::row_start(work, n, u)..layout::row_end(work, n, u) {
        let x = layout::arc(work, n, j);
        hand = relax(work, n, hand, limit, d, k, x);
    }
    hand
}

// No place is open: the query ends by the least sum over arcs to places with no label, where there is one.
fn all_settled(work: &[u32], site: Site, count: u32) -> Asked
    requires { Listed site count work.now }
    ensures { AllSettled site count work.now result }
{
    let next = scans::next_limit(work, site, count as usize);
    let outcome = if next == layout::NONE {
        Outcome::None
    } else {
        Outcome::Ended(next)
    };
    Asked {
        outcome,
        count,
        place: 0,
    }
}

// Each turn tests for a goal before the budget, since a query's length counts the places before the first goal, and for the budget before
// the allowance, since document 01 lets it count first.
pub fn query(
    work: &mut [u32],
    site: Site,
    limit: u32,
    budget: u32,
    left: u32,
) -> Result<Asked, Spent>
    requires { Askable site limit work.old }
    ensures { Answered site limit budget left work.old work.new result }
{
    let n = site.places;
    let open_start = layout::open_at(n);
    let open_end = layout::parents_at(n);
    clear(work, n);
    let mut hand = arrive(work, n, open_list::empty(), site.start as usize, 0, 0);
    let mut count = 0;
    loop {
        let first = open_list::least(&work[open_start..open_end], n, hand);
        let d = open_list::key_of(first);
        let place = open_list::place_of(first) as usize;
        if d == open_list::NONE {
            return Ok(all_settled(work, site, count));
        }
        if layout::is_goal(work, n, place) {
            return Ok(Asked {
                outcome: Outcome::Found,
                count,
                place: place as u32,
            });
        }
        if count == budget {
            return Ok(Asked {
                outcome: Outcome::Over,
                count,
                place: 0,
            });
        }
        if count == left {
            return Err(Spent);
        }
        hand = settle(work, n, hand, count, place);
        hand = expand(work, site, hand, limit, place, d);
        count += 1;
    }
}
