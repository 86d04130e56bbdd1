// The work area: where its regions begin, what stands in them, and an arc in one word (specs/Regions.antt). Nobody else counts words.
// The words and the count of places are two parameters: a struct of both would hold a `&mut`, and each contract would have to say that it
// still holds the same one.
#![tactic(auto)]

ghost use Rattle.std.specs.Prelude.{◌≡◌, not, ◌≤◌, ◌<◌, eqb, length};
ghost use Rattle.layout.specs.Regions.{depths_at, open_at, parents_at, waits_at, ends_at, estimates_at, goals_at, arcs_at};
ghost use Rattle.layout.specs.Regions.{label_word, depth_word, parent_word, wait_word, estimate_word, goal_word, arc_word};
ghost use Rattle.layout.specs.Regions.{with_label, with_depth, with_parent};
ghost use Rattle.layout.specs.Regions.{part_end, arc_end, arc_cost, word_of_arc, HasPlace, HasArc};
ghost use Rattle.layout.specs.Map.{row_start, row_end};
ghost use Rattle.layout.specs.Labels.{NoLabels, NoParents, listed_at};
ghost use Rattle.model.specs.Limits.{max_places};

use map::Map;

// The word of a place with no label or no parent.
pub const NONE: u32 = 0xFFFF_FFFF;

// What an arc's end counts in its word: above every cost.
const END: u32 = Map::ARC_COST + 1;

// A region has a function by its name, as a caller reads it, where a number for the region would say less; each asks that its product fits.
pub fn depths_at(places: usize) -> usize
    requires { places ≤ max_places }
    ensures { result ≡ depths_at places }
{
    places
}

pub fn open_at(places: usize) -> usize
    requires { places ≤ max_places }
    ensures { result ≡ open_at places }
{
    2 * places
}

pub fn parents_at(places: usize) -> usize
    requires { places ≤ max_places }
    ensures { result ≡ parents_at places }
{
    12 * places
}

// While a map is loaded its waits lie where the parents will.
pub fn waits_at(places: usize) -> usize
    requires { places ≤ max_places }
    ensures { result ≡ waits_at places }
{
    parents_at(places)
}

pub fn ends_at(places: usize) -> usize
    requires { places ≤ max_places }
    ensures { result ≡ ends_at places }
{
    13 * places
}

pub fn estimates_at(places: usize) -> usize
    requires { places ≤ max_places }
    ensures { result ≡ estimates_at places }
{
    14 * places
}

pub fn goals_at(places: usize) -> usize
    requires { places ≤ max_places }
    ensures { result ≡ goals_at places }
{
    15 * places
}

pub fn arcs_at(places: usize) -> usize
    requires { places ≤ max_places }
    ensures { result ≡ arcs_at places }
{
    16 * places
}

pub fn label(work: &[u32], v: usize) -> u32
    requires { v < length work.now }
    ensures { result ≡ label_word work.now v }
{
    work[v]
}

pub fn set_label(work: &mut [u32], v: usize, d: u32)
    requires { v < length work.old }
    ensures { work.new ≡ with_label work.old v d }
{
    work[v] = d;
}

// No place has a label. A query begins with this: by the slice's own `fill`, route searches on small maps take up to a fifth longer.
pub fn clear_labels(work: &mut [u32], places: usize)
    requires { (places ≤ max_places) × (arcs_at places ≤ length work.old) }
    ensures { NoLabels places work.old work.new }
{
    let end = depths_at(places);
    area::fill(&mut work[..end], NONE);
}

// The depth of place v: how many arcs the search has come along to its label.
pub fn depth(work: &[u32], places: usize, v: usize) -> u32
    requires { HasPlace places v work.now }
    ensures { result ≡ depth_word places work.now v }
{
    work[depths_at(places) + v]
}

pub fn set_depth(work: &mut [u32], places: usize, v: usize, k: u32)
    requires { HasPlace places v work.old }
    ensures { work.new ≡ with_depth places work.old v k }
{
    work[depths_at(places) + v] = k;
}

pub fn parent(work: &[u32], places: usize, v: usize) -> u32
    requires { HasPlace places v work.now }
    ensures { result ≡ parent_word places work.now v }
{
    work[parents_at(places) + v]
}

pub fn set_parent(work: &mut [u32], places: usize, v: usize, u: u32)
    requires { HasPlace places v work.old }
    ensures { work.new ≡ with_parent places work.old v u }
{
    work[parents_at(places) + v] = u;
}

// No place has a parent. Filled as the labels are.
pub fn clear_parents(work: &mut [u32], places: usize)
    requires { (places ≤ max_places) × (arcs_at places ≤ length work.old) }
    ensures { NoParents places work.old work.new }
{
    let start = parents_at(places);
    area::fill(&mut work[start..start + places], NONE);
}

// Place number i of the list of expanded places.
#[tactic(auto, unfolding(crate::specs::Labels::listed_at))]
pub fn listed(work: &[u32], places: usize, i: usize) -> usize
    requires { HasPlace places i work.now }
    ensures { result ≡ listed_at places work.now i }
{
    parent(work, places, i) as usize
}

pub fn wait(work: &[u32], places: usize, v: usize) -> u32
    requires { HasPlace places v work.now }
    ensures { result ≡ wait_word places work.now v }
{
    parent(work, places, v)
}

pub fn estimate(work: &[u32], places: usize, v: usize) -> u32
    requires { HasPlace places v work.now }
    ensures { result ≡ estimate_word places work.now v }
{
    work[estimates_at(places) + v]
}

pub fn is_goal(work: &[u32], places: usize, v: usize) -> bool
    requires { HasPlace places v work.now }
    ensures { result ≡ not (eqb (goal_word places work.now v) 0) }
{
    work[goals_at(places) + v] != 0
}

// The row of place v: the numbers of its first arc, and of the one after its last.
#[tactic(auto, unfolding(crate::specs::Map::row_end))]
pub fn row_end(work: &[u32], places: usize, v: usize) -> usize
    requires { HasPlace places v work.now }
    ensures { result ≡ row_end places work.now v }
{
    work[ends_at(places) + v] as usize
}

#[tactic(auto, using(crate::proofs::Held::row_start_after), unfolding(crate::specs::Map::row_start))]
pub fn row_start(work: &[u32], places: usize, v: usize) -> usize
    requires { HasPlace places v work.now }
    ensures { result ≡ row_start places work.now v }
{
    if v == 0 {
        return 0;
    }
    row_end(work, places, v - 1)
}

// The word of arc number k.
pub fn arc(work: &[u32], places: usize, k: usize) -> u32
    requires { HasArc places k work.now }
    ensures { result ≡ arc_word places work.now k }
{
    work[arcs_at(places) + k]
}

pub fn arc_end(word: u32) -> usize
    ensures { result ≡ arc_end word }
{
    (word / END) as usize
}

pub fn arc_cost(word: u32) -> u32
    ensures { result ≡ arc_cost word }
{
    word % END
}

pub fn arc_word(to: u32, cost: u32) -> u32
    requires { (to < part_end) × (cost < part_end) }
    ensures { result ≡ word_of_arc to cost }
{
    END * to + cost
}
