// Program `route`: a map with its job on standard input, the answer on standard output.
#![tactic(auto)]

ghost use Rattle.std.specs.Prelude.{◌≡◌, ◌+◌, ◌*◌, ◌≤◌, [], ◌++◌};
ghost use Rattle.arrayvec.specs.ArrayVec.{array_vec_len};
ghost use Rattle.model.specs.Limits.{max_places};
ghost use Rattle.answer.specs.Numbers.{answer_of};
ghost use Rattle.text.specs.Text.{line};
ghost use Rattle.route.specs.Printed.{places_on, text_of, answered, text_room, Prints, LineOne};

use answer::Answer;
use arrayvec::ArrayVec;
use console::{INPUT, SHEET, WORK};
use map::Map;

// Room for both lines, of 6 numbers and of at most as many as a map has places: 11 bytes a number and 1 more.
const TEXT: usize = 11 * 6 + 1 + 11 * Map::PLACES + 1;

type Text = ArrayVec<u8, TEXT>;

// Line one: all numbers of the answer but the sheet's bytes.
fn put_answer(text: &mut Text, answer: Answer)
    requires { array_vec_len text.old + 11 * 6 + 1 ≤ text_room }
    ensures { LineOne (answer_of answer) text.old.items text.new.items }
{
    let numbers = [
        answer.number,
        answer.cost,
        answer.limit,
        answer.floor,
        answer.expansions,
        answer.queries,
    ];
    text::push_line(text, numbers.into_iter().map(u64::from));
}

// Line two: the places that the sheet says.
fn put_places(text: &mut Text, sheet: &[u8])
    requires { array_vec_len text.old + 11 * max_places + 1 ≤ text_room }
    ensures { text.new.items ≡ text.old.items ++ line (places_on sheet.now) }
{
    let reading = sheet_reader::read(sheet);
    let places = reading.places.iter().take(reading.count as usize);
    text::push_line(text, places.map(|p| u64::from(*p)));
}

// Both lines of an input's answer, or the one that it has.
fn put_route(text: &mut Text, input: &[u8])
    requires { text.old.items ≡ [] }
    ensures { text.new.items ≡ text_of (answered input.now) }
{
    let mut work = [0u32; WORK];
    let mut sheet = [0u8; SHEET];
    let answer = router::route(input, &mut work, &mut sheet);
    put_answer(text, answer);
    if answer.number == 0 {
        let bytes = answer.sheet_bytes as usize;
        put_places(text, &sheet[..bytes]);
    }
}

// All that the program prints of an input, into an empty text.
fn text_of(input: &[u8], text: &mut Text)
    requires { text.old.items ≡ [] }
    ensures { Prints input.now text.new.items }
{
    if INPUT < input.len() {
        text::push_bytes(text, b"too long\n");
    } else {
        put_route(text, input);
    }
}

// The text goes out by one call, which ends at the first write that fails: what stands there then is the text's beginning, and no more follows.
fn reply(rt: &HostRuntime, input: &[u8]) {
    let mut text = ArrayVec::new();
    text_of(input, &mut text);
    console::print(
        &rt.stdout(),
        &rt.stderr(),
        text.as_slice(),
        b"route: cannot write standard output\n",
    );
}

fn main(rt: HostRuntime) {
    let mut input = [0u8; INPUT + 1];
    match console::read_all(&mut rt.stdin(), &mut input) {
        Ok(bytes) => reply(&rt, &input[..bytes]),
        Err(_) => console::complain(&rt.stderr(), b"route: cannot read standard input\n"),
    }
}
