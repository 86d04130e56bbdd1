// Records of the input, one after another, and what each says. Kinds, body lengths and the places of fields are spelled here and nowhere else.
ghost use Rattle.std.specs.Prelude.{◌≡◌, ◌+◌, ◌≤◌, length, drop};
ghost use Rattle.model.specs.Items.{head_bytes, arc_bytes, estimate_bytes, measured_bytes, wait_bytes, factors_bytes, lane_of, measured_of};
ghost use Rattle.model.specs.Bytes.{u16s};
ghost use Rattle.model.specs.Stated.{cost_under};
ghost use Rattle.map.specs.Records.{read_at};
ghost use Rattle.map.specs.Items.{size_at, lane_meant, measured_meant, estimate_body_at, wait_body_at, job_at, table_at, TableLies, Priced};
ghost use Rattle.map.specs.Items.{kind_number, LiesIn, FitsIn, Says, EndsBy};

use crate::Map;
use crate::refusal::Refusal;

// The kinds of record. A measured arc has a length and a class in place of a cost; a map's own factors replace the fixed ones; a default is
// one estimate for all places that have none of their own.
#[derive(Clone, Copy, Debug, PartialEq, Eq)]
pub enum Kind {
    Head = 1,
    Arc = 2,
    Estimate = 3,
    Job = 4,
    Measured = 5,
    Wait = 6,
    Factors = 7,
    Default = 8,
}

impl Kind {
    // A record's kind is read as a number, which may be none of these: `item_of` compares it.
    pub fn number(self) -> u16
        ensures { result ≡ kind_number self }
    {
        self as u16
    }
}

// The bytes before a record's body: its length and its kind.
pub const HEADER: usize = 4;

// How long a body is, by its kind; a job's length depends on its goals.
pub const HEAD_BYTES: usize = 4;

pub const ARC_BYTES: usize = 6;

pub const ESTIMATE_BYTES: usize = 6;

pub const MEASURED_BYTES: usize = 8;

pub const WAIT_BYTES: usize = 4;

pub const FACTORS_BYTES: usize = 16;

pub const DEFAULT_BYTES: usize = 4;

// Where the fields of a head stand in its body.
const PLACES: usize = 0;

const ARCS: usize = 2;

// Where the fields of an arc stand in its body: the place that it leaves, the place where it ends, its cost or its length and class.
const FROM: usize = 0;

const TO: usize = 2;

const COST: usize = 4;

const LENGTH: usize = 4;

const CLASS: usize = 6;

// Where the fields of an estimate and of a wait stand in its body.
const PLACE: usize = 0;

const VALUE: usize = 2;

// Where the fields of a job stand in its body. Its goals are 2 bytes each.
const START: usize = 0;

const ALLOWANCE: usize = 2;

const GOAL_COUNT: usize = 6;

pub const GOALS: usize = 8;

// A whole record: its kind, and where its body stands. The next one begins where the body ends.
#[derive(Clone, Copy)]
pub struct Record {
    pub kind: u16,
    pub start: usize,
    pub end: usize,
}

#[derive(Clone, Copy)]
pub struct Size {
    pub places: usize,
    pub arcs: usize,
}

// An arc with a cost, and one with a length and a class.
#[derive(Clone, Copy)]
pub struct Lane {
    pub from: usize,
    pub to: usize,
    pub cost: u32,
}

#[derive(Clone, Copy)]
pub struct MeasuredLane {
    pub from: usize,
    pub to: usize,
    pub length: u32,
    pub class: usize,
}

// A number for a place: an estimate, or a wait.
#[derive(Clone, Copy)]
pub struct PlaceValue {
    pub place: usize,
    pub value: u32,
}

// A job's goals are `goals` numbers of 2 bytes from byte `goals_at` on.
#[derive(Clone, Copy)]
pub struct JobFields {
    pub start: u32,
    pub allowance: u32,
    pub goals: usize,
    pub goals_at: usize,
}

// What a record says, by its kind. `Misfit` has one of the papers' kinds and a body of another length; `Other` has none of their kinds.
#[derive(Clone, Copy)]
pub enum Item {
    Head(Size),
    Lane(Lane),
    Measured(MeasuredLane),
    Estimate(PlaceValue),
    Wait(PlaceValue),
    // The byte at which the factors begin.
    Factors(usize),
    // An estimate for all places that have none of their own.
    Default(u32),
    Job(JobFields),
    Misfit,
    Other,
}

// What stands at a position where a record should begin: nothing at the end, a record, or a broken tail.
pub fn read_at(input: &[u8], at: usize) -> Option<Result<Record, Refusal>>
    requires { at ≤ length input.now }
    ensures { result ≡ read_at input.now at }
{
    let left = input.len() - at;
    if left == 0 {
        return None;
    }
    if left < HEADER {
        return Some(Err(Refusal::Broken));
    }
    let len = usize::from(area::u16_at(input, at));
    if left - HEADER < len {
        return Some(Err(Refusal::Broken));
    }
    Some(Ok(Record {
        kind: area::u16_at(input, at + 2),
        start: at + HEADER,
        end: at + HEADER + len,
    }))
}

fn head_at(input: &[u8], at: usize) -> Size
    requires { at + head_bytes ≤ length input.now }
    ensures { result ≡ size_at input.now at }
{
    Size {
        places: usize::from(area::u16_at(input, at + PLACES)),
        arcs: usize::from(area::u16_at(input, at + ARCS)),
    }
}

fn lane_at(input: &[u8], at: usize) -> Lane
    requires { at + arc_bytes ≤ length input.now }
    ensures { lane_meant result ≡ lane_of (drop at input.now) }
{
    Lane {
        from: usize::from(area::u16_at(input, at + FROM)),
        to: usize::from(area::u16_at(input, at + TO)),
        cost: u32::from(area::u16_at(input, at + COST)),
    }
}

fn measured_at(input: &[u8], at: usize) -> MeasuredLane
    requires { at + measured_bytes ≤ length input.now }
    ensures { measured_meant result ≡ measured_of (drop at input.now) }
{
    MeasuredLane {
        from: usize::from(area::u16_at(input, at + FROM)),
        to: usize::from(area::u16_at(input, at + TO)),
        length: u32::from(area::u16_at(input, at + LENGTH)),
        class: usize::from(area::u16_at(input, at + CLASS)),
    }
}

fn estimate_at(input: &[u8], at: usize) -> PlaceValue
    requires { at + estimate_bytes ≤ length input.now }
    ensures { result ≡ estimate_body_at input.now at }
{
    PlaceValue {
        place: usize::from(area::u16_at(input, at + PLACE)),
        value: area::u32_at(input, at + VALUE),
    }
}

fn wait_at(input: &[u8], at: usize) -> PlaceValue
    requires { at + wait_bytes ≤ length input.now }
    ensures { result ≡ wait_body_at input.now at }
{
    PlaceValue {
        place: usize::from(area::u16_at(input, at + PLACE)),
        value: u32::from(area::u16_at(input, at + VALUE)),
    }
}

// A job's body of `len` bytes that begins at byte `at`.
fn job_at(input: &[u8], at: usize, len: usize) -> Item
    requires { at + len ≤ length input.now }
    ensures { result ≡ job_at input.now at len }
{
    if len < GOALS {
        return Item::Misfit;
    }
    let goals = usize::from(area::u16_at(input, at + GOAL_COUNT));
    if len != GOALS + 2 * goals {
        return Item::Misfit;
    }
    Item::Job(JobFields {
        start: u32::from(area::u16_at(input, at + START)),
        allowance: area::u32_at(input, at + ALLOWANCE),
        goals,
        goals_at: at + GOALS,
    })
}

// What a record says. Kind and length are looked at together, by one branch.
pub fn item_of(input: &[u8], r: Record) -> Item
    requires { LiesIn input.now r }
    ensures { Says input.now r result }
{
    let len = r.end - r.start;
    if (r.kind == Kind::Arc as u16) & (len == ARC_BYTES) {
        return Item::Lane(lane_at(input, r.start));
    }
    if (r.kind == Kind::Measured as u16) & (len == MEASURED_BYTES) {
        return Item::Measured(measured_at(input, r.start));
    }
    if (r.kind == Kind::Estimate as u16) & (len == ESTIMATE_BYTES) {
        return Item::Estimate(estimate_at(input, r.start));
    }
    if (r.kind == Kind::Wait as u16) & (len == WAIT_BYTES) {
        return Item::Wait(wait_at(input, r.start));
    }
    if (r.kind == Kind::Head as u16) & (len == HEAD_BYTES) {
        return Item::Head(head_at(input, r.start));
    }
    if r.kind == Kind::Job as u16 {
        return job_at(input, r.start, len);
    }
    if (r.kind == Kind::Factors as u16) & (len == FACTORS_BYTES) {
        return Item::Factors(r.start);
    }
    if (r.kind == Kind::Default as u16) & (len == DEFAULT_BYTES) {
        return Item::Default(area::u32_at(input, r.start));
    }
    if (r.kind < 1) | (r.kind > Kind::Default as u16) {
        return Item::Other;
    }
    Item::Misfit
}

// The same of a record whose length is known to be that of its kind, so that it is not looked at again; but that of a wait, of factors and of a default is,
// since out of kinds alone the compiler would make a table of jumps.
pub fn fitting_item(input: &[u8], r: Record) -> Item
    requires { FitsIn input.now r }
    ensures { Says input.now r result }
{
    let len = r.end - r.start;
    if r.kind == Kind::Arc as u16 {
        return Item::Lane(lane_at(input, r.start));
    }
    if r.kind == Kind::Measured as u16 {
        return Item::Measured(measured_at(input, r.start));
    }
    if r.kind == Kind::Estimate as u16 {
        return Item::Estimate(estimate_at(input, r.start));
    }
    if (r.kind == Kind::Wait as u16) & (len == WAIT_BYTES) {
        return Item::Wait(wait_at(input, r.start));
    }
    if r.kind == Kind::Head as u16 {
        return Item::Head(head_at(input, r.start));
    }
    if r.kind == Kind::Job as u16 {
        return job_at(input, r.start, len);
    }
    if (r.kind == Kind::Factors as u16) & (len == FACTORS_BYTES) {
        return Item::Factors(r.start);
    }
    if (r.kind == Kind::Default as u16) & (len == DEFAULT_BYTES) {
        return Item::Default(area::u32_at(input, r.start));
    }
    Item::Other
}

// The factors that begin at byte `at`, one for each class.
fn factors_at(input: &[u8], at: usize) -> [u32; Map::CLASS + 1]
    requires { at + factors_bytes ≤ length input.now }
    ensures { result ≡ u16s 8 input.now at }
{
    let mut factors = [0u32; Map::CLASS + 1];
    for class in 0..Map::CLASS + 1 {
        factors[class] = u32::from(area::u16_at(input, at + class + class));
    }
    factors
}

// The table of factors in force: those that begin at this byte, or the fixed ones where there is none.
#[tactic(auto, unfolding(crate::specs::Items::table_at))]
pub fn factors(input: &[u8], at: Option<usize>) -> [u32; Map::CLASS + 1]
    requires { TableLies input.now at }
    ensures { result ≡ table_at input.now at }
{
    match at {
        Some(at) => factors_at(input, at),
        None => Map::fixed_factors(),
    }
}

// What a lane that is measured costs under a table of factors.
pub fn measured_cost(lane: MeasuredLane, factors: &[u32; Map::CLASS + 1]) -> u32
    requires { Priced factors.now (measured_meant lane).charge }
    ensures { result ≡ cost_under factors.now (measured_meant lane).charge }
{
    let class = lane.class;
    lane.length * factors[class]
}

// Where a record ends that says this. That it is an arc, an estimate or a wait says it, so that what is read next need not be held up by the length
// that was just read.
pub fn end_of(r: Record, item: Item) -> usize
    requires { EndsBy r item }
    ensures { result ≡ r.end }
{
    match item {
        Item::Lane(_) => r.start + ARC_BYTES,
        Item::Measured(_) => r.start + MEASURED_BYTES,
        Item::Estimate(_) => r.start + ESTIMATE_BYTES,
        Item::Wait(_) => r.start + WAIT_BYTES,
        Item::Head(_)
        | Item::Factors(_)
        | Item::Default(_)
        | Item::Job(_)
        | Item::Misfit
        | Item::Other => r.end,
    }
}
