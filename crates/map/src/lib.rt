// The map's type with the limits of the papers, and the records of an input.
#![tactic(auto)]

pub mod number;
pub mod record;
pub mod refusal;
pub mod sheet;
pub mod walk;

ghost use Rattle.std.specs.Prelude.{◌≡◌, ◌≤◌};
ghost use Rattle.map.specs.Sizes.{map_of, words_of, bytes_of};
ghost use Rattle.model.specs.Limits.{max_places, max_arcs};
ghost use Rattle.model.specs.Stated.{fixed_factors};

// The size of a map within the limits: its places are 0 to places − 1.
#[derive(Clone, Copy)]
pub struct Map {
    pub places: usize,
    pub arcs: usize,
}

impl Map {
    // The most places and arcs, the dearest arc, the highest estimate, the most goals.
    pub const PLACES: usize = 4096;

    pub const ARCS: usize = 16384;

    pub const ARC_COST: u32 = 65535;

    pub const ESTIMATE: u32 = 268435455;

    pub const GOALS: usize = 64;

    // The longest lane that is measured, the highest class.
    pub const LENGTH: u32 = 4095;

    pub const CLASS: usize = 7;

    // The highest factor.
    pub const FACTOR: u32 = 16;

    // The fixed factors of classes 0 to 7: what a lane costs for each foot of its length.
    const FACTORS: [u32; Map::CLASS + 1] = [1, 2, 3, 4, 6, 8, 12, 16];

    // The bytes of the sheet area that the largest map asks for.
    pub const SHEET_BYTES: usize = 10 + 2 * Map::PLACES;

    // A map has a place or more, and no more places and arcs than the limits allow.
    pub fn new(places: usize, arcs: usize) -> Option<Map>
        ensures { result ≡ map_of places arcs }
    {
        if (places < 1) | (Map::PLACES < places) | (Map::ARCS < arcs) {
            return None;
        }
        Some(Map { places, arcs })
    }

    // The table of factors of a map that states no other.
    pub fn fixed_factors() -> [u32; Map::CLASS + 1]
        ensures { result ≡ fixed_factors }
    {
        Map::FACTORS
    }
}

// What a search is told besides the words that hold its map: the map's size, the start, and what the budget is multiplied by when a round
// closes.
#[derive(Clone, Copy)]
pub struct Site {
    pub places: usize,
    pub arcs: usize,
    pub start: u32,
    pub growth: u32,
}

// What is asked of a site is said at each function: with an invariant (a Model) the fields, which five crates read, would be read through a view.
impl Site {
    // The words of the work area that document 01 asks for.
    pub fn words(self) -> usize
        requires { (self.places ≤ max_places) × (self.arcs ≤ max_arcs) }
        ensures { result ≡ words_of self }
    {
        16 * self.places + 2 * self.arcs
    }

    // The bytes of the sheet area that it asks for.
    pub fn bytes(self) -> usize
        requires { self.places ≤ max_places }
        ensures { result ≡ bytes_of self }
    {
        10 + 2 * self.places
    }
}

// An accepted input: what a search is told of it, the allowance, its goals, `goals` numbers of 2 bytes from byte `goals_at` on, where its own
// factors begin, if it has any, and the estimate of places that have none of their own.
#[derive(Clone, Copy)]
pub struct Job {
    pub site: Site,
    pub allowance: u32,
    pub goals: usize,
    pub goals_at: usize,
    pub factors_at: Option<usize>,
    pub default: u32,
}

impl Job {
    pub fn new(
        site: Site,
        allowance: u32,
        goals: usize,
        goals_at: usize,
        factors_at: Option<usize>,
        default: u32,
    ) -> Self
        ensures { (result.site ≡ site) × (result.allowance ≡ allowance) × (result.goals ≡ goals) × (result.goals_at ≡ goals_at)
            × (result.factors_at ≡ factors_at) × (result.default ≡ default) }
    {
        Job {
            site,
            allowance,
            goals,
            goals_at,
            factors_at,
            default,
        }
    }
}
