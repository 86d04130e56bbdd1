// Refusal 21: two waits for one place, or an arc that costs more with its wait than an arc may. It is looked for only where there is a wait, since it
// takes two passes over the records and a number for each place.
ghost use Rattle.std.specs.Prelude.{◌≡◌, ◌≤◌, ◌<◌, length, get_or};
ghost use Rattle.model.specs.Limits.{max_places, max_cost};
ghost use Rattle.model.specs.Refusals.{wrong_wait};
ghost use Rattle.model.specs.Stated.{stated_in};
ghost use Rattle.map.specs.Items.{of_map};
ghost use Rattle.judge.specs.Marks.{Clear};
ghost use Rattle.judge.specs.Waits.{wait_noted, exceeds, too_dear, any_too_dear, Fitting, CanNote, NotedItem, NotedAll, CanWeigh, Weighable};

use map::record::Item;
use map::walk::Items;
use map::{Map, record};

// The wait that is noted of a place: 0 where it has none, otherwise one less than what is noted, since a wait of 0 is one too.
fn wait_noted(noted: u32) -> u32
    ensures { result ≡ wait_noted noted }
{
    if noted == 0 {
        return 0;
    }
    noted - 1
}

// Notes a wait. Whether its place has one already.
fn note(item: Item, noted: &mut [u32; Map::PLACES]) -> bool
    requires { CanNote (of_map item) noted.old }
    ensures { NotedItem (of_map item) noted.old result noted.new }
{
    let Item::Wait(wait) = item else {
        return false;
    };
    let place = wait.place;
    if noted[place] != 0 {
        return true;
    }
    noted[place] = wait.value + 1;
    false
}

// Notes every wait. Whether two are for one place.
fn note_all(input: &[u8], noted: &mut [u32; Map::PLACES]) -> bool
    requires { Fitting input.now × Clear noted.old }
    ensures { NotedAll (stated_in input.now) result noted.new }
{
    let mut twice = false;
    for item in Items::of(input) {
        if note(item, noted) {
            twice = true;
        }
    }
    twice
}

// A lane of this cost by itself costs more with its wait than an arc may.
fn exceeds(noted: &[u32; Map::PLACES], from: usize, cost: u32) -> bool
    requires { (from < max_places) × (cost ≤ max_cost) × (get_or noted.now from 0 ≤ 65536) }
    ensures { result ≡ exceeds noted.now from cost }
{
    Map::ARC_COST < cost + wait_noted(noted[from])
}

fn too_dear(item: Item, factors: &[u32; Map::CLASS + 1], noted: &[u32; Map::PLACES]) -> bool
    requires { CanWeigh factors.now (of_map item) noted.now }
    ensures { result ≡ too_dear factors.now noted.now (of_map item) }
{
    match item {
        Item::Lane(lane) => exceeds(noted, lane.from, lane.cost),
        Item::Measured(lane) => exceeds(noted, lane.from, record::measured_cost(lane, factors)),
        Item::Head(_)
        | Item::Estimate(_)
        | Item::Wait(_)
        | Item::Factors(_)
        | Item::Default(_)
        | Item::Job(_)
        | Item::Misfit
        | Item::Other => false,
    }
}

// Some lane is too dear with its wait.
fn any_too_dear(input: &[u8], factors: &[u32; Map::CLASS + 1], noted: &[u32; Map::PLACES]) -> bool
    requires { Weighable factors.now input.now noted.now }
    ensures { result ≡ any_too_dear (stated_in input.now) }
{
    for item in Items::of(input) {
        if too_dear(item, factors, noted) {
            return true;
        }
    }
    false
}

// The input has so many waits, and these are its factors.
pub fn wrong(input: &[u8], waits: usize, factors: &[u32; Map::CLASS + 1]) -> bool
    requires { Fitting input.now × (waits ≡ length (stated_in input.now).waits) × (factors.now ≡ (stated_in input.now).factors) }
    ensures { result ≡ wrong_wait (stated_in input.now) }
{
    if waits == 0 {
        return false;
    }
    let mut noted = [0u32; Map::PLACES];
    let twice = note_all(input, &mut noted);
    twice | any_too_dear(input, factors, &noted)
}
