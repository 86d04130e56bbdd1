// An entry: a place and its key as a pair of words, the key before the place. One comparison then puts the lesser key first and, of equal
// keys, the lower place.
ghost use Rattle.std.specs.Prelude.{◌<◌};
ghost use Rattle.open_list.specs.Entry.{IsEntry, IsWord, word_end};

use area::pair;
pub use area::pair::{high as key_of, low as place_of};

// A place as it stands in a word. Callers learn that it is below 2^32.
pub fn wide(word: u32) -> usize
    ensures { IsWord word result }
{
    word as usize
}

pub fn pair(place: usize, key: u32) -> u64
    requires { place < word_end }
    ensures { IsEntry place key result }
{
    pair::join(key, place)
}
