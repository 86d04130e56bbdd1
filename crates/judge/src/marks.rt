// A mark for each place of the map that has an estimate.
ghost use Rattle.std.specs.Prelude.{◌≡◌, ◌≤◌};
ghost use Rattle.judge.specs.Marks.{mark_of, Marked};
ghost use Rattle.model.specs.Limits.{max_places};

use map::Map;

// A place's mark is 0 where it has no estimate. Marks are numbers, as noted waits are: both passes share one law of marks (specs/Marks.antt).
pub const ESTIMATE_0: u8 = 1;

pub const ESTIMATE_ABOVE_0: u8 = 2;

fn mark_of(value: u32) -> u8
    ensures { result ≡ mark_of value }
{
    if value == 0 {
        return ESTIMATE_0;
    }
    ESTIMATE_ABOVE_0
}

// Marks a place of the map that has no mark yet. Whether it had one.
pub fn mark(marks: &mut [u8; Map::PLACES], places: usize, place: usize, value: u32) -> bool
    requires { places ≤ max_places }
    ensures { Marked places marks.old place value result marks.new }
{
    if places <= place {
        return false;
    }
    if marks[place] != 0 {
        return true;
    }
    marks[place] = mark_of(value);
    false
}
