// Writes the two sheets.
#![tactic(auto)]

ghost use Rattle.sheet_writer.specs.Write.{FitsNoRoute, NoRouteWritten, FitsRoute, RouteWritten};
ghost use Rattle.std.specs.Prelude.{◌≡◌};
ghost use Rattle.layout.specs.Regions.{HasPlace};
ghost use Rattle.layout.specs.Labels.{word_or, parent_at};
ghost use Rattle.sheet_writer.specs.Header.{FitsHeader, HeaderWritten};
ghost use Rattle.sheet_writer.specs.Places.{Leads, ArcsCounted, FitsPlaces, PlacesWritten};

use layout::NONE;
use map::sheet;

// A constant is cast, since `u32::from` is no constant's call.
const ROUTE_KIND: u32 = sheet::ROUTE as u32;

const NO_ROUTE_KIND: u32 = sheet::NO_ROUTE as u32;

// Where the first place stands: after length, kind, cost and count.
const FIRST: usize = 10;

// Kind 18: the start.
pub fn no_route(sheet: &mut [u8], start: u32) -> u32
    requires { FitsNoRoute sheet.old }
    ensures { NoRouteWritten start sheet.old sheet.new result }
{
    area::put16(sheet, 0, 2);
    area::put16(sheet, 2, NO_ROUTE_KIND);
    area::put16(sheet, 4, start);
    6
}

// The parent of v, or NONE, as the word of the lent area has it.
fn parent(work: &[u32], n: usize, v: u32) -> u32
    requires { HasPlace n v work.now }
    ensures { word_or result ≡ parent_at n work.now v }
{
    layout::parent(work, n, v as usize)
}

// How many arcs lead from the start to v.
fn arcs_to(work: &[u32], n: usize, v: u32) -> usize
    requires { Leads n v work.now }
    ensures { ArcsCounted n v work.now result }
{
    let mut arcs = 0;
    let mut u = parent(work, n, v);
    while u != NONE {
        arcs += 1;
        u = parent(work, n, u);
    }
    arcs
}

// The places from the start to v, with this many arcs between them: the earlier places first.
fn put_places(sheet: &mut [u8], work: &[u32], n: usize, v: u32, arcs: usize)
    requires { FitsPlaces n v arcs work.now sheet.old }
    ensures { PlacesWritten n v work.now sheet.old sheet.new }
{
    if 0 < arcs {
        let u = parent(work, n, v);
        put_places(sheet, work, n, u, arcs - 1);
    }
    area::put16(sheet, FIRST + 2 * arcs, v);
}

// What stands before the places: the record's length and kind, the cost, and the number of places.
fn put_header(sheet: &mut [u8], cost: u32, count: u32)
    requires { FitsHeader count sheet.old }
    ensures { HeaderWritten cost count sheet.old sheet.new }
{
    area::put16(sheet, 0, 6 + 2 * count);
    area::put16(sheet, 2, ROUTE_KIND);
    area::put32(sheet, 4, cost);
    area::put16(sheet, 8, count);
}

// Kind 17: the cost, the number of places, and the places along the parents from the start to the goal.
pub fn route(sheet: &mut [u8], work: &[u32], n: usize, goal: u32, cost: u32) -> u32
    requires { FitsRoute n goal work.now sheet.old }
    ensures { RouteWritten n goal cost work.now sheet.old sheet.new result }
{
    let arcs = arcs_to(work, n, goal);
    let count = arcs as u32 + 1;
    put_header(sheet, cost, count);
    put_places(sheet, work, n, goal, arcs);
    10 + 2 * count
}
