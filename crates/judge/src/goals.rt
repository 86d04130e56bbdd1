// The pass over a job's goals.
ghost use Rattle.std.specs.Prelude.{◌≡◌, ◌+◌, ◌*◌, ◌≤◌, ◌<◌, length};
ghost use Rattle.judge.specs.Goals.{estimated_at, note, Checked};
ghost use Rattle.model.specs.Bytes.{u16s};
ghost use Rattle.model.specs.Limits.{max_places};

use crate::marks;
use map::Map;

#[derive(Clone, Copy)]
pub struct Goals {
    pub outside: bool,
    pub falls: bool,
    pub estimated: bool,
    // The least goal that may follow, since goals rise strictly.
    pub next: usize,
}

// A place of the map has an estimate above 0.
fn estimated(marks: &[u8; Map::PLACES], places: usize, goal: usize) -> bool
    requires { places ≤ max_places }
    ensures { result ≡ estimated_at places marks.now goal }
{
    if places <= goal {
        return false;
    }
    marks[goal] == marks::ESTIMATE_ABOVE_0
}

fn with_goal(g: Goals, goal: usize, places: usize, marks: &[u8; Map::PLACES]) -> Goals
    requires { (places ≤ max_places) × (goal < 65536) }
    ensures { result ≡ note places marks.now g goal }
{
    Goals {
        outside: g.outside | (places <= goal),
        falls: g.falls | (goal < g.next),
        estimated: g.estimated | estimated(marks, places, goal),
        next: goal + 1,
    }
}

// The `count` goals from byte `at` on.
pub fn of(input: &[u8], at: usize, count: usize, places: usize, marks: &[u8; Map::PLACES]) -> Goals
    requires { (at + 2 * count ≤ length input.now) × (places ≤ max_places) }
    ensures { Checked (u16s count input.now at) places marks.now result }
{
    let mut g = Goals {
        outside: false,
        falls: false,
        estimated: false,
        next: 0,
    };
    for k in 0..count {
        let goal = usize::from(area::u16_at(input, at + 2 * k));
        g = with_goal(g, goal, places, marks);
    }
    g
}
