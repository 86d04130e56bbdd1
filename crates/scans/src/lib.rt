// Passes over what a search has recorded: for the number with which a query ends, and for the goal and the parents of a route.
#![tactic(auto)]

ghost use Rattle.std.specs.Prelude.{◌≡◌, suc};
ghost use Rattle.layout.specs.Rows.{IsArcWord};
ghost use Rattle.scans.specs.Area.{Listed, IsNextLimit, Recorded, HasParents, LowestGoal, NearestGoal};
ghost use Rattle.scans.specs.Scans.{Crossed, LimitRow, LimitByRow, parent_stored, ParentsRow, ParentsBelow, Choosable, nearer_of};

use layout::NONE;
use map::Site;

// The arc with the word x, from a place labelled d: its sum of label, cost and estimate, or `least` where that is less or its end has a label.
fn crossing(work: &[u32], site: Site, d: u32, x: u32, least: u32) -> u32
    requires { IsArcWord site.places d x work.now }
    ensures { Crossed site d x least work.now result }
{
    let v = layout::arc_end(x);
    let sum = d + layout::arc_cost(x) + layout::estimate(work, site.places, v);
    let label = layout::label(work, v);
    let out = if label == NONE { sum } else { NONE };
    out.min(least)
}

// The least sum over the arcs of u, which has a label, to places with none, or `least` where that is less.
fn row_limit(work: &[u32], site: Site, u: usize, least: u32) -> u32
    requires { LimitRow site u work.now }
    ensures { LimitByRow site u least work.now result }
{
    let n = site.places;
    let d = layout::label(work, u);
    let mut best = least;
    for k in layout::row_start(work, n, u)..layout::row_end(work, n, u) {
        best = crossing(work, site, d, layout::arc(work, n, k), best);
    }
    best
}

// The number with which a query ends, or NONE: by the rows of the places that it expanded, which are listed where the parents will be.
pub fn next_limit(work: &[u32], site: Site, count: usize) -> u32
    requires { Listed site count work.now }
    ensures { IsNextLimit site work.now result }
{
    let mut best = NONE;
    for i in 0..count {
        let u = layout::listed(work, site.places, i);
        best = row_limit(work, site, u, best);
    }
    best
}

// The arc with the word x, from u with the label d, which makes k arcs from the start: u is the parent of its end, if that is labelled d plus
// the arc's cost, lies at depth k, and has no parent yet.
fn parent_by(work: &mut [u32], n: usize, u: u32, d: u32, k: u32, x: u32)
    requires { IsArcWord n d x work.old }
    ensures { work.new ≡ parent_stored n u d k x work.old }
{
    let v = layout::arc_end(x);
    if layout::label(work, v) != d + layout::arc_cost(x) {
        return;
    }
    if layout::depth(work, n, v) != k {
        return;
    }
    if layout::parent(work, n, v) == NONE {
        layout::set_parent(work, n, v, u);
    }
}

// The parents that the arcs of u give, if it has a label.
fn row_parents(work: &mut [u32], site: Site, u: usize)
    requires { ParentsRow site u work.old }
    ensures { ParentsBelow site.places (suc u) work.old work.new }
{
    let n = site.places;
    let d = layout::label(work, u);
    if d == NONE {
        return;
    }
    let arcs = layout::depth(work, n, u) + 1;
    for k in layout::row_start(work, n, u)..layout::row_end(work, n, u) {
        let x = layout::arc(work, n, k);
        parent_by(work, n, u as u32, d, arcs, x);
    }
}

// Places in rising order, so that the first parent found is the lowest-numbered.
pub fn parents(work: &mut [u32], site: Site)
    requires { Recorded site work.old }
    ensures { HasParents site work.old work.new }
{
    let n = site.places;
    layout::clear_parents(work, n);
    for u in 0..n {
        row_parents(work, site, u);
    }
}

// The goal v where it has the label of `goal` and a smaller depth, or else `goal`.
fn nearer(work: &[u32], site: Site, goal: usize, v: usize) -> usize
    requires { Choosable site goal v work.now }
    ensures { result ≡ nearer_of site.places goal v work.now }
{
    let n = site.places;
    if !layout::is_goal(work, n, v) {
        return goal;
    }
    if layout::label(work, v) != layout::label(work, goal) {
        return goal;
    }
    if layout::depth(work, n, v) < layout::depth(work, n, goal) {
        v
    } else {
        goal
    }
}

// Of the goals with the label of `first`, which is the lowest-numbered of them, the one of least depth, and of such the lowest-numbered.
pub fn nearest_goal(work: &[u32], site: Site, first: u32) -> u32
    requires { LowestGoal site first work.now }
    ensures { NearestGoal site first work.now result }
{
    let mut goal = first as usize;
    for v in goal + 1..site.places {
        goal = nearer(work, site, goal, v);
    }
    goal as u32
}
