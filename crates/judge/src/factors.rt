// Refusal 22: the rules that a table of factors has to keep.
ghost use Rattle.std.specs.Prelude.{◌≡◌};
ghost use Rattle.model.specs.Refusals.{breaks_rules};

use map::Map;

// A factor is out of range, or smaller than the one before.
pub fn break_rules(factors: &[u32; Map::CLASS + 1]) -> bool
    ensures { result ≡ breaks_rules factors.now }
{
    let mut wrong = false;
    let mut before: u32 = 0;
    for factor in *factors {
        wrong = wrong | (factor < 1) | (Map::FACTOR < factor) | (factor < before);
        before = factor;
    }
    wrong
}
