// The pass over the records: what each is given by itself, and what they state. Each step is inlined but `earlier`, so that the survey stays in
// registers.
ghost use Rattle.std.specs.Prelude.{◌≡◌, not, eqb};
ghost use Rattle.judge.specs.Marks.{Clear};
ghost use Rattle.judge.specs.Numbers.{earlier};
ghost use Rattle.judge.specs.Survey.{few_places, cost_refusal, measure_refusal, lane_refusal, value_refusal, estimate_refusal, default_refusal};
ghost use Rattle.judge.specs.Survey.{wait_refusal, headless, first_table, first_default, passed};
ghost use Rattle.judge.specs.Survey.{with_head, with_lane, with_wait, with_factors, with_default, with_job};
ghost use Rattle.judge.specs.Survey.{at_end, Counted, Noted, Surveyed};

use crate::marks;
use map::record::{Item, JobFields, PlaceValue, Size};
use map::refusal::Refusal;
use map::{Map, record};

#[derive(Clone, Copy)]
pub struct Survey {
    // The refusal of the lowest number among those that the records were given.
    pub refusal: Option<Refusal>,
    pub records: usize,
    // What the first record states, if it is a head; no places where they are more than a map can have.
    pub places: usize,
    pub arcs: usize,
    pub lanes: usize,
    pub waits: usize,
    // The records that state factors, and where the factors of the first begin, if there is one.
    pub tables: usize,
    pub factors_at: Option<usize>,
    // The records that state a default, and what the first states, or 0, the estimate that holds where there is none.
    pub defaults: usize,
    pub default: u32,
    pub jobs: usize,
    pub job_last: bool,
    // The last job.
    pub job: JobFields,
}

#[inline(always)]
fn few_places(places: usize) -> usize
    ensures { result ≡ few_places places }
{
    if Map::PLACES < places {
        return 0;
    }
    places
}

#[inline(always)]
fn cost_refusal(cost: u32) -> Option<Refusal>
    ensures { result ≡ cost_refusal cost }
{
    if cost == 0 {
        return Some(Refusal::FreeArc);
    }
    None
}

#[inline(always)]
fn measure_refusal(length: u32, class: usize) -> Option<Refusal>
    ensures { result ≡ measure_refusal length class }
{
    if (length < 1) | (Map::LENGTH < length) | (Map::CLASS < class) {
        return Some(Refusal::WrongMeasure);
    }
    None
}

// What an arc is given, whose cost or measure is given `own`.
#[inline(always)]
fn lane_refusal(
    first: bool,
    places: usize,
    from: usize,
    to: usize,
    own: Option<Refusal>,
) -> Option<Refusal>
    ensures { result ≡ lane_refusal first places from to own }
{
    if first {
        return Some(Refusal::WrongHead);
    }
    if (places <= from) | (places <= to) {
        return Some(Refusal::OutsideMap);
    }
    own
}

// What an estimate is given for its value, and for coming again: for its place, or as a default.
#[inline(always)]
fn value_refusal(value: u32, again: bool) -> Option<Refusal>
    ensures { result ≡ value_refusal again value }
{
    if Map::ESTIMATE < value {
        return Some(Refusal::LargeEstimate);
    }
    if again {
        return Some(Refusal::TwoEstimates);
    }
    None
}

#[inline(always)]
fn estimate_refusal(first: bool, places: usize, e: PlaceValue, again: bool) -> Option<Refusal>
    ensures { result ≡ estimate_refusal first places again e }
{
    if first {
        return Some(Refusal::WrongHead);
    }
    if places <= e.place {
        return Some(Refusal::OutsideMap);
    }
    value_refusal(e.value, again)
}

#[inline(always)]
fn default_refusal(first: bool, value: u32, again: bool) -> Option<Refusal>
    ensures { result ≡ default_refusal first again value }
{
    if first {
        return Some(Refusal::WrongHead);
    }
    value_refusal(value, again)
}

#[inline(always)]
fn wait_refusal(first: bool, places: usize, place: usize) -> Option<Refusal>
    ensures { result ≡ wait_refusal first places place }
{
    if first {
        return Some(Refusal::WrongHead);
    }
    if places <= place {
        return Some(Refusal::OutsideMap);
    }
    None
}

// What a record is given that is no head and may stand anywhere but first.
#[inline(always)]
fn headless(first: bool) -> Option<Refusal>
    ensures { result ≡ headless first }
{
    if first {
        return Some(Refusal::WrongHead);
    }
    None
}

// Of two refusals the one of the lower number. Not inlined: its tests would be made of each record, and few are given a refusal.
#[inline(never)]
fn earlier(a: Option<Refusal>, b: Option<Refusal>) -> Option<Refusal>
    ensures { result ≡ earlier a b }
{
    match (a, b) {
        (None, _) => b,
        (Some(_), None) => a,
        (Some(x), Some(y)) => { if y.number() < x.number() { b } else { a } }
    }
}

// The same, with one test where the second is none.
#[inline(always)]
fn earlier_if_given(a: Option<Refusal>, b: Option<Refusal>) -> Option<Refusal>
    ensures { result ≡ earlier a b }
{
    if let None = b {
        return a;
    }
    earlier(a, b)
}

// The survey with one record more, which is given this refusal or none.
#[inline(always)]
fn after(s: Survey, refusal: Option<Refusal>) -> Survey
    requires { Counted s }
    ensures { result ≡ passed s refusal }
{
    let mut t = s;
    t.refusal = earlier_if_given(s.refusal, refusal);
    t.records += 1;
    t.job_last = false;
    t
}

#[inline(always)]
fn with_head(s: Survey, size: Size) -> Survey
    requires { Counted s }
    ensures { result ≡ with_head s size }
{
    if s.records != 0 {
        return after(s, Some(Refusal::WrongHead));
    }
    let mut t = after(s, None);
    t.places = few_places(size.places);
    t.arcs = size.arcs;
    t
}

#[inline(always)]
fn with_lane(s: Survey, from: usize, to: usize, own: Option<Refusal>) -> Survey
    requires { Counted s }
    ensures { result ≡ with_lane s from to own }
{
    let mut t = after(s, lane_refusal(s.records == 0, s.places, from, to, own));
    t.lanes += 1;
    t
}

#[inline(always)]
fn with_estimate(s: Survey, e: PlaceValue, marks: &mut [u8; Map::PLACES]) -> Survey
    requires { Counted s }
    ensures { Noted marks.old s (Item.Estimate e) marks.new result }
{
    let again = marks::mark(marks, s.places, e.place, e.value);
    after(s, estimate_refusal(s.records == 0, s.places, e, again))
}

#[inline(always)]
fn with_wait(s: Survey, place: usize) -> Survey
    requires { Counted s }
    ensures { result ≡ with_wait s place }
{
    let mut t = after(s, wait_refusal(s.records == 0, s.places, place));
    t.waits += 1;
    t
}

// Where the factors in force begin, with one more table, whose factors begin at byte `at`: a first one replaces the fixed ones.
#[inline(always)]
fn first_table(tables: usize, factors_at: Option<usize>, at: usize) -> Option<usize>
    ensures { result ≡ first_table tables factors_at at }
{
    if tables == 0 {
        return Some(at);
    }
    factors_at
}

#[inline(always)]
fn with_factors(s: Survey, at: usize) -> Survey
    requires { Counted s }
    ensures { result ≡ with_factors s at }
{
    let mut t = after(s, headless(s.records == 0));
    t.tables += 1;
    t.factors_at = first_table(s.tables, s.factors_at, at);
    t
}

// The default in force, with one more that states this value.
#[inline(always)]
fn first_default(defaults: usize, noted: u32, value: u32) -> u32
    ensures { result ≡ first_default defaults noted value }
{
    if defaults == 0 {
        return value;
    }
    noted
}

#[inline(always)]
fn with_default(s: Survey, value: u32) -> Survey
    requires { Counted s }
    ensures { result ≡ with_default (not (eqb s.defaults 0)) s value }
{
    let again = s.defaults != 0;
    let mut t = after(s, default_refusal(s.records == 0, value, again));
    t.defaults += 1;
    t.default = first_default(s.defaults, s.default, value);
    t
}

#[inline(always)]
fn with_job(s: Survey, job: JobFields) -> Survey
    requires { Counted s }
    ensures { result ≡ with_job s job }
{
    let mut t = after(s, headless(s.records == 0));
    t.jobs += 1;
    t.job_last = true;
    t.job = job;
    t
}

#[inline(always)]
fn with_item(s: Survey, item: Item, marks: &mut [u8; Map::PLACES]) -> Survey
    requires { Counted s }
    ensures { Noted marks.old s item marks.new result }
{
    match item {
        Item::Head(size) => with_head(s, size),
        Item::Lane(lane) => with_lane(s, lane.from, lane.to, cost_refusal(lane.cost)),
        Item::Measured(lane) => with_lane(
            s,
            lane.from,
            lane.to,
            measure_refusal(lane.length, lane.class),
        ),
        Item::Estimate(e) => with_estimate(s, e, marks),
        Item::Wait(w) => with_wait(s, w.place),
        Item::Factors(at) => with_factors(s, at),
        Item::Default(value) => with_default(s, value),
        Item::Job(job) => with_job(s, job),
        Item::Misfit => after(s, Some(Refusal::WrongLength)),
        Item::Other => after(s, Some(Refusal::UnknownKind)),
    }
}

// An input with no record has no head.
fn ended(s: Survey) -> Survey
    ensures { result ≡ at_end s }
{
    if s.records != 0 {
        return s;
    }
    let mut t = s;
    t.refusal = Some(Refusal::WrongHead);
    t
}

pub fn of(input: &[u8], marks: &mut [u8; Map::PLACES]) -> Survey
    requires { Clear marks.old }
    ensures { Surveyed input.now marks.new result }
{
    let mut s = Survey {
        refusal: None,
        records: 0,
        places: 0,
        arcs: 0,
        lanes: 0,
        waits: 0,
        tables: 0,
        factors_at: None,
        defaults: 0,
        default: 0,
        jobs: 0,
        job_last: false,
        job: JobFields {
            start: 0,
            allowance: 0,
            goals: 0,
            goals_at: 0,
        },
    };
    // By hand: with an iterator over what the records say, reading a map takes two fifths longer.
    let mut at: usize = 0;
    loop {
        match record::read_at(input, at) {
            Some(Ok(r)) => {
                let item = record::item_of(input, r);
                s = with_item(s, item, marks);
                at = record::end_of(r, item);
            }
            Some(Err(refusal)) => {
                s.refusal = Some(refusal);
                return s;
            }
            None => return ended(s),
        }
    }
}
