// The open list of a search: a key for each place that is open. A place is inserted or its key decreased (`lower`), a place is removed
// (`close`), and the least key is found with the lowest place that has it (`least`).
//
// Callers reason over the list of keys alone (specs/Keys.antt, proofs/Laws.antt). Behind it stands a tournament tree, eight-fold, over
// blocks of eight keys (src/tree.rt), in ten words a place that the caller lends, and one place in hand, a number that it carries from call
// to call: the place's key * 2^32 + the place.
//
// Each operation but `clear` and `reset` takes time logarithmic in the number of places; these two take linear time, but `reset` next to
// none where the tree holds no open place. The hand takes a place that comes before the one in hand, which then goes into the tree. A
// place that is closed while in hand takes no work on the tree: this saves nearly all of it in searches with few open places.
//
// Words, places and hand go in one by one. The words are a part of a work area whose other parts the caller uses between two calls, so that
// a struct of the three would be made anew for each call.
#![tactic(auto)]

ghost use Rattle.std.specs.Prelude.{◌≡◌};
ghost use Rattle.open_list.specs.Entry.{place_of, key_of, no_key};
ghost use Rattle.open_list.specs.Keys.{Room, OpenList, LeastKey, CanLower, CanClose, Put, Cleared, Used, keys_of, empty_hand};
ghost use Rattle.open_list.specs.Tree.{TreePut};

mod entry;
mod tree;

// What `least` gives as one number: the key, and the place.
pub use entry::{key_of, place_of};

// The key of a place that is not open.
pub const NONE: u32 = u32::MAX;

// The words of the list for each place.
pub const WORDS: usize = 10;

// The entry after all others, with no key and a place beyond all: the hand with nothing in it.
const EMPTY: u64 = u64::MAX;

// Nothing in hand.
pub fn empty() -> u64
    ensures { result ≡ empty_hand }
{
    EMPTY
}

// No place is open; the hand is empty.
pub fn clear(words: &mut [u32], places: usize)
    requires { Room places words.old }
    ensures { Cleared places words.new }
{
    tree::clear(words, places);
}

// The same, of words that a list has been kept in: those that hold no open place are clear already.
pub fn reset(words: &mut [u32], places: usize)
    requires { Used places words.old }
    ensures { Cleared places words.new }
{
    let root = tree::least(words, places);
    if entry::key_of(root) == NONE {
        return;
    }
    tree::clear(words, places);
}

// What is in hand goes into the tree. The place of an empty hand is beyond all, so that it changes no key.
fn put_down(words: &mut [u32], places: usize, hand: u64)
    requires { OpenList places hand words.old }
    ensures { TreePut places (place_of hand) (key_of hand) words.old words.new }
{
    let key = entry::key_of(hand);
    if key == NONE {
        return;
    }
    tree::lower(words, places, entry::wide(entry::place_of(hand)), key);
}

// The place is open with this key, which is none above the one that it has.
pub fn lower(words: &mut [u32], places: usize, hand: u64, place: usize, key: u32) -> u64
    requires { CanLower places hand place key words.old }
    ensures { Put places place key hand words.old result words.new }
{
    let x = entry::pair(place, key);
    if entry::wide(entry::place_of(hand)) == place {
        return x;
    }
    // The hand takes what comes before it and has no key in the tree.
    if x < hand {
        let k = tree::key(words, places, place);
        if k == NONE {
            put_down(words, places, hand);
            return x;
        }
    }
    tree::lower(words, places, place, key);
    hand
}

// The place is open no more.
pub fn close(words: &mut [u32], places: usize, hand: u64, place: usize) -> u64
    requires { CanClose places hand place words.old }
    ensures { Put places place no_key hand words.old result words.new }
{
    if entry::wide(entry::place_of(hand)) == place {
        return EMPTY;
    }
    tree::close(words, places, place);
    hand
}

// The least key, and the lowest place that has it, as one number: key * 2^32 + place. The key is NONE where no place is open.
pub fn least(words: &[u32], places: usize, hand: u64) -> u64
    requires { OpenList places hand words.now }
    ensures { LeastKey (keys_of places hand words.now) (place_of result) (key_of result) }
{
    let root = tree::least(words, places);
    hand.min(root)
}
