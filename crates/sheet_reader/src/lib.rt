// Reads a sheet: any bytes in, what they say out.
#![tactic(auto)]

ghost use Rattle.std.specs.Prelude.{◌≡◌, ◌+◌, ◌*◌, ◌≤◌, length};
ghost use Rattle.model.specs.Limits.{max_places};
ghost use Rattle.model.specs.Sheets.{route_kind, no_route_kind, refused_read, read_record, read_sheet, host_answer};
ghost use Rattle.sheet_reader.specs.Read.{reading_of, number_of, read_as, listed};

use map::number::{NO_JOB, NO_SHEET};
use map::{Map, sheet};

// The numbers that a read of an accepted sheet gives.
pub use map::number::{FOUND, NO_ROUTE};

// How many places a reading has room for.
pub const PLACES: usize = Map::PLACES;

// What a sheet says: the read's number, the cost, and the places with zeros after the last. The number is the one that a host gets, and the
// places are an array with their count beside it, as the calls use no heap.
#[derive(Debug, PartialEq, Eq, Drop)]
pub struct Reading {
    pub number: u32,
    pub cost: u32,
    pub count: u32,
    pub places: [u16; Map::PLACES],
}

// Why a sheet is refused: its bytes are no sheet, or no job could have it.
#[derive(Clone, Copy, Debug, PartialEq, Eq)]
enum Refusal {
    NoSheet,
    NoJob,
}

impl From<Refusal> for u32 {
    fn from(refusal: Refusal) -> u32
        ensures { result ≡ number_of refusal }
    {
        match refusal {
            Refusal::NoSheet => NO_SHEET,
            Refusal::NoJob => NO_JOB,
        }
    }
}

fn refused(refusal: Refusal) -> Reading
    ensures { reading_of result ≡ refused_read (number_of refusal) }
{
    Reading {
        number: u32::from(refusal),
        cost: 0,
        count: 0,
        places: [0u16; Map::PLACES],
    }
}

// The places of a route sheet's body, if a job could have them. One pass, which ends at a place that no map has, or that was seen before.
fn places_of(body: &[u8], count: usize) -> Option<[u16; Map::PLACES]>
    requires { (6 + 2 * count ≤ length body.now) × (count ≤ max_places) }
    ensures { result ≡ listed body.now count }
{
    let mut list = [0u16; Map::PLACES];
    let mut seen = [false; Map::PLACES];
    for i in 0..count {
        let place = area::u16_at(body, 6 + 2 * i);
        let at = usize::from(place);
        if Map::PLACES <= at || seen[at] {
            return None;
        }
        seen[at] = true;
        list[i] = place;
    }
    Some(list)
}

fn read_route(body: &[u8]) -> Result<Reading, Refusal>
    ensures { read_as result ≡ read_record (record { kind = route_kind; body = body.now }) }
{
    if body.len() < 6 {
        return Err(Refusal::NoSheet);
    }
    let cost = area::u32_at(body, 0);
    let count = usize::from(area::u16_at(body, 4));
    if body.len() != 6 + 2 * count {
        return Err(Refusal::NoSheet);
    }
    if count == 0 || Map::PLACES < count {
        return Err(Refusal::NoJob);
    }
    let arcs = (count - 1) as u32;
    if cost < arcs || arcs * Map::ARC_COST < cost {
        return Err(Refusal::NoJob);
    }
    let Some(places) = places_of(body, count) else {
        return Err(Refusal::NoJob);
    };
    Ok(Reading {
        number: FOUND,
        cost,
        count: arcs + 1,
        places,
    })
}

fn read_no_route(body: &[u8]) -> Result<Reading, Refusal>
    ensures { read_as result ≡ read_record (record { kind = no_route_kind; body = body.now }) }
{
    if body.len() != 2 {
        return Err(Refusal::NoSheet);
    }
    let start = area::u16_at(body, 0);
    if Map::PLACES <= usize::from(start) {
        return Err(Refusal::NoJob);
    }
    let mut places = [0u16; Map::PLACES];
    places[0] = start;
    Ok(Reading {
        number: NO_ROUTE,
        cost: 0,
        count: 1,
        places,
    })
}

// What the one record of a sheet says, or why the sheet is refused.
fn try_read(sheet: &[u8]) -> Result<Reading, Refusal>
    ensures { read_as result ≡ read_sheet sheet.now }
{
    if sheet.len() < 4 {
        return Err(Refusal::NoSheet);
    }
    let length = usize::from(area::u16_at(sheet, 0));
    let kind = area::u16_at(sheet, 2);
    if sheet.len() != 4 + length {
        return Err(Refusal::NoSheet);
    }
    let body = &sheet[4..];
    match kind {
        sheet::ROUTE => read_route(body),
        sheet::NO_ROUTE => read_no_route(body),
        _ => Err(Refusal::NoSheet),
    }
}

// The whole reading of any bytes.
pub fn read(sheet: &[u8]) -> Reading
    ensures { reading_of result ≡ read_sheet sheet.now }
{
    match try_read(sheet) {
        Ok(reading) => reading,
        Err(refusal) => refused(refusal),
    }
}

// What the host asks of a sheet, by a question number: 0 the read's number, 1 the cost, 2 the count of places, 3 + i place i.
pub fn r3_sheet(sheet: &[u8], question: u32) -> u32
    ensures { result ≡ host_answer (read_sheet sheet.now) question }
{
    let reading = read(sheet);
    match question {
        0 => reading.number,
        1 => reading.cost,
        2 => reading.count,
        _ => reading
            .places
            .get((question - 3) as usize)
            .map_or(0, |place| u32::from(*place)),
    }
}
