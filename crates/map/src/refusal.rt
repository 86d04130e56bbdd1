// Why an input is refused, in the order of the papers' numbers.
ghost use Rattle.std.specs.Prelude.{◌≡◌};
ghost use Rattle.map.specs.Refusals.{number_of};

#[derive(Clone, Copy, Debug, PartialEq, Eq)]
pub enum Refusal {
    Broken = 1,
    UnknownKind = 2,
    WrongLength = 3,
    WrongHead = 4,
    WrongSize = 5,
    OutsideMap = 6,
    FreeArc = 7,
    LargeEstimate = 8,
    TwoEstimates = 9,
    WrongJob = 10,
    JobOutsideMap = 11,
    WrongGoals = 12,
    GoalEstimate = 13,
    ShortWork = 14,
    ShortSheet = 15,
    WrongMeasure = 20,
    WrongWait = 21,
    WrongFactors = 22,
}

impl Refusal {
    pub fn number(self) -> u32
        ensures { result ≡ number_of self }
    {
        self as u32
    }
}
