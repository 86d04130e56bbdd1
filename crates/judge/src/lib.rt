// Judges an input: the refusal of the first of the papers' numbers 1 to 13 and 20 to 22 whose condition holds, or what an accepted input states.
#![tactic(auto)]

mod factors;
mod goals;
mod marks;
mod survey;
mod verdict;
mod waits;

pub use verdict::judge;
