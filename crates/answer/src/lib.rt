// The seven numbers of an answer, which every public call gives, and how they go to a host.
#![tactic(auto)]

ghost use Rattle.std.specs.Prelude.{◌≡◌, length, take};
ghost use Rattle.model.specs.Answer.{answer, over_front};
ghost use Rattle.answer.specs.Numbers.{answer_of, seven, put_over};

// Document 01's seven numbers.
#[derive(Clone, Copy, PartialEq)]
pub struct Answer {
    pub number: u32,
    pub cost: u32,
    pub limit: u32,
    pub floor: u32,
    pub expansions: u32,
    pub queries: u32,
    pub sheet_bytes: u32,
}

pub fn refused(number: u32) -> Answer
    ensures { answer_of result ≡ answer number 0 0 0 0 0 0 }
{
    Answer {
        number,
        cost: 0,
        limit: 0,
        floor: 0,
        expansions: 0,
        queries: 0,
        sheet_bytes: 0,
    }
}

// Copies the items from the first on, as many as there is room for. By a loop with a test: `copy_from_slice`, or a loop that `zip` ends, would
// ask whoever links an archive for memcpy.
pub fn put_front<T: Copy>(to: &mut [T], items: &[T])
    ensures { to.new ≡ put_over items.now to.old }
{
    for (i, item) in items.iter().enumerate() {
        if i < to.len() {
            to[i] = *item;
        }
    }
}

// The seven numbers in order, as many as there is room for.
pub fn put_numbers(words: &mut [u32], r: Answer)
    ensures { words.new ≡ over_front (take (length words.old) (seven (answer_of r))) words.old }
{
    let numbers = [
        r.number,
        r.cost,
        r.limit,
        r.floor,
        r.expansions,
        r.queries,
        r.sheet_bytes,
    ];
    put_front(words, &numbers);
}
