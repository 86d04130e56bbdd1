// The records of a map, put into the output area one after another. A function takes the area and where it puts, and gives back where it
// ends: a struct of both would hold a `&mut`, and each contract would have to say that it still holds the same one.
#![tactic(auto)]

ghost use Rattle.std.specs.Prelude.{ℕ, ◌≡◌, ◌++◌, ◌+◌, ◌^◌, ◌<◌, ◌≤◌, length};
ghost use Rattle.model.specs.Bytes.{put16, put16s};
ghost use Rattle.model.specs.Framing.{put_record};
ghost use Rattle.model.specs.Items.{estimate_kind, wait_kind};
ghost use Rattle.model.specs.Jobs.{put_table, put_some_default, put_lane};
ghost use Rattle.model.specs.Limits.{max_places};
ghost use Rattle.map.specs.Items.{kind_number, table_at, TableLies};
ghost use Rattle.sort.specs.Keys.{key_from};
ghost use Rattle.lane_rows.specs.Keys.{lane_in};
ghost use Rattle.map_records.specs.Puts.{Put, Fits, put_lanes, put_value, put_by_place, put_job_of, map_text, GoalsLast, Puttable};

use map::record::{self, Kind};
use map::{Job, Map};

// The length of a record's body and its kind.
fn put_header(out: &mut [u8], at: usize, bytes: usize, kind: Kind) -> usize
    requires { (bytes < 2 ^ 32) × (at + 4 ≤ length out.old) }
    ensures { Put (put16 bytes ++ put16 (kind_number kind)) at out.old out.new result }
{
    area::put16(out, at, bytes as u32);
    area::put16(out, at + 2, u32::from(kind.number()));
    at + record::HEADER
}

// A record of a few fields of 2 bytes.
fn put_fields(out: &mut [u8], at: usize, kind: Kind, fields: &[u32]) -> usize
    requires { (length fields.now ≤ 4) × Fits (put_record (kind_number kind) (put16s fields.now)) at out.old }
    ensures { Put (put_record (kind_number kind) (put16s fields.now)) at out.old out.new result }
{
    let mut end = put_header(out, at, 2 * fields.len(), kind);
    for field in fields {
        area::put16(out, end, *field);
        end += 2;
    }
    end
}

// The lane of a key, as the record it was.
fn put_lane(out: &mut [u8], at: usize, high: u32, low: u32) -> usize
    requires { Fits (put_lane (lane_in (key_from high low))) at out.old }
    ensures { Put (put_lane (lane_in (key_from high low))) at out.old out.new result }
{
    let from = high / lane_rows::FROM;
    let to = high % lane_rows::FROM;
    if low / lane_rows::MEASURED % 2 == 0 {
        let cost = low / lane_rows::COST;
        return put_fields(out, at, Kind::Arc, &[from, to, cost]);
    }
    let feet = low / lane_rows::LENGTH % lane_rows::LENGTHS;
    let class = low % lane_rows::LENGTH;
    put_fields(out, at, Kind::Measured, &[from, to, feet, class])
}

// The lanes of all keys in the words.
fn put_lanes(out: &mut [u8], start: usize, words: &[u32]) -> usize
    requires { Fits (put_lanes words.now) start out.old }
    ensures { Put (put_lanes words.now) start out.old out.new result }
{
    let mut at = start;
    for [high, low] in words.as_chunks::<2>().0 {
        at = put_lane(out, at, *high, *low);
    }
    at
}

// A kind of record that gives a place a number.
trait PlaceRecord {
    ghost kind: { ℕ };

    fn put(out: &mut [u8], at: usize, place: usize, value: u32) -> usize
        requires { (place ≤ max_places) × Fits (put_value kind place value) at out.old }
        ensures { Put (put_value kind place value) at out.old out.new result };
}

struct Estimate;

impl PlaceRecord for Estimate {
    ghost kind = { estimate_kind };

    fn put(out: &mut [u8], at: usize, place: usize, value: u32) -> usize {
        let body = put_header(out, at, record::ESTIMATE_BYTES, Kind::Estimate);
        area::put16(out, body, place as u32);
        area::put32(out, body + 2, value);
        body + record::ESTIMATE_BYTES
    }
}

struct Wait;

impl PlaceRecord for Wait {
    ghost kind = { wait_kind };

    fn put(out: &mut [u8], at: usize, place: usize, value: u32) -> usize {
        put_fields(out, at, Kind::Wait, &[place as u32, value])
    }
}

// The numbers of all places, which are the words in order, but for those that hold without a record.
fn put_by_place<R: PlaceRecord>(out: &mut [u8], start: usize, unless: u32, words: &[u32]) -> usize
    requires { (length words.now ≤ max_places) × Fits (put_by_place R.kind unless 0 words.now) start out.old }
    ensures { Put (put_by_place R.kind unless 0 words.now) start out.old out.new result }
{
    let mut at = start;
    for (place, value) in words.iter().enumerate() {
        if *value != unless {
            at = R::put(out, at, place, *value);
        }
    }
    at
}

// The map's own table of factors, if it has one that is not the fixed one.
fn put_table(out: &mut [u8], at: usize, input: &[u8], table: Option<usize>) -> usize
    requires { TableLies input.now table × Fits (put_table (table_at input.now table)) at out.old }
    ensures { Put (put_table (table_at input.now table)) at out.old out.new result }
{
    let Some(from) = table else {
        return at;
    };
    let factors = record::factors(input, table);
    let fixed = Map::fixed_factors();
    if factors == fixed {
        return at;
    }
    let body = put_header(out, at, record::FACTORS_BYTES, Kind::Factors);
    let end = from + record::FACTORS_BYTES;
    area::put_bytes(out, body, &input[from..end]);
    body + record::FACTORS_BYTES
}

// The default, where it is not 0, also where no place is left to it.
fn put_default(out: &mut [u8], at: usize, value: u32) -> usize
    requires { Fits (put_some_default value) at out.old }
    ensures { Put (put_some_default value) at out.old out.new result }
{
    if value == 0 {
        return at;
    }
    let body = put_header(out, at, record::DEFAULT_BYTES, Kind::Default);
    area::put32(out, body, value);
    body + record::DEFAULT_BYTES
}

// The job; its goals are the rest of the input.
fn put_job(out: &mut [u8], at: usize, input: &[u8], job: Job) -> usize
    requires { GoalsLast input.now job × Fits (put_job_of input.now job) at out.old }
    ensures { Put (put_job_of input.now job) at out.old out.new result }
{
    let bytes = record::GOALS + 2 * job.goals;
    let body = put_header(out, at, bytes, Kind::Job);
    area::put16(out, body, job.site.start);
    area::put32(out, body + 2, job.allowance);
    area::put16(out, body + 6, job.goals as u32);
    area::put_bytes(out, body + record::GOALS, &input[job.goals_at..]);
    body + bytes
}

// The map that the words hold: lanes in the order of their keys, estimates and waits by place; then its factors, its default and the job. An estimate that is
// the default has no record.
pub fn put_map(out: &mut [u8], input: &[u8], job: Job, work: &[u32]) -> usize
    requires { Puttable input.now job work.now out.old }
    ensures { Put (map_text input.now job work.now) 0 out.old out.new result }
{
    let places = job.site.places;
    let arcs = job.site.arcs;
    let head_end = put_fields(out, 0, Kind::Head, &[places as u32, arcs as u32]);
    let start = layout::arcs_at(places);
    let end = start + 2 * arcs;
    let lanes_end = put_lanes(out, head_end, &work[start..end]);
    let first = layout::estimates_at(places);
    let last = layout::goals_at(places);
    let waits = layout::waits_at(places);
    let ends = layout::ends_at(places);
    let estimates_end = put_by_place::<Estimate>(out, lanes_end, job.default, &work[first..last]);
    let waits_end = put_by_place::<Wait>(out, estimates_end, 0, &work[waits..ends]);
    let table_end = put_table(out, waits_end, input, job.factors_at);
    let default_end = put_default(out, table_end, job.default);
    put_job(out, default_end, input, job)
}
