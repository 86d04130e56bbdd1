// Walks over the records of an input: the records of any input, and what the records of a whole one say.
ghost use Rattle.std.specs.Prelude.{◌≡◌, ◌≤◌, ◌-◌, false, List, length, drop};
ghost use Rattle.std.specs.Iterator.{at_most, item_count};
ghost use Rattle.model.specs.Framing.{frame};
ghost use Rattle.model.specs.Items.{items};
ghost use Rattle.model.specs.Refusals.{wrong_length};
ghost use Rattle.map.specs.Walks.{Position, NextReads, Left, all_of, NextSays};

use crate::record::{self, Item, Record};
use crate::refusal::Refusal;
use std::marker::Model;

// The records from byte `at` on are left. A broken tail comes last, as its refusal.
#[derive(Drop)]
pub struct Records<'a> {
    input: &'a [u8],
    at: usize,
}

impl<'a> Model for Records<'a> {
    ghost Value = { Position };

    ghost view = { λ s. record { input = s.input.now; at = s.at } };

    ghost invariant = { λ s. s.at ≤ length s.input.now };
}

impl<'a> Records<'a> {
    pub fn from(input: &'a [u8], at: usize) -> Records<'a>
        requires { at ≤ length input.now }
        ensures { result ≡ record { input = input.now; at = at } }
    {
        Records { input, at }
    }
}

impl<'a> Iterator for Records<'a> {
    type Item = Result<Record, Refusal>;

    ghost next_gives = { NextReads };

    ghost remaining = { λ s. at_most (length s.input - s.at) };

    fn next(&mut self) -> Option<Result<Record, Refusal>> {
        match record::read_at(self.input, self.at) {
            Some(Ok(r)) => {
                self.at = r.end;
                Some(Ok(r))
            }
            Some(Err(refusal)) => {
                self.at = self.input.len();
                Some(Err(refusal))
            }
            None => None,
        }
    }
}

// The records from byte `at` on are left, and each has the length of its kind.
#[derive(Drop)]
pub struct Items<'a> {
    input: &'a [u8],
    at: usize,
}

impl<'a> Model for Items<'a> {
    ghost Value = { Left };

    ghost view = { λ s. record { input = s.input.now; items = items (frame (drop s.at s.input.now)).records } };

    ghost invariant = { λ s. (s.at ≤ length s.input.now) × (wrong_length (frame (drop s.at s.input.now)).records ≡ false) };
}

impl<'a> Items<'a> {
    // All records of the input are left.
    pub fn of(input: &'a [u8]) -> Items<'a>
        requires { wrong_length (frame input.now).records ≡ false }
        ensures { result ≡ all_of input.now }
    {
        Items { input, at: 0 }
    }
}

impl<'a> Iterator for Items<'a> {
    type Item = Item;

    ghost next_gives = { NextSays };

    ghost remaining = { item_count (λ s. s.items) };

    // That a record ends where what it says ends, `record::end_of` says: the next read need not wait for the length.
    #[inline]
    fn next(&mut self) -> Option<Item> {
        match record::read_at(self.input, self.at) {
            Some(Ok(r)) => {
                let item = record::fitting_item(self.input, r);
                self.at = record::end_of(r, item);
                Some(item)
            }
            Some(Err(_)) => None,
            None => None,
        }
    }
}
