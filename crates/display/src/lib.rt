// What the display shows of a sheet: a lamp, the cost and the places.
#![tactic(auto)]

pub mod lamps;

ghost use Rattle.std.specs.Prelude.{◌≡◌};
ghost use Rattle.sheet_reader.specs.Sheets.{read_sheet};
ghost use Rattle.display.specs.Shown.{lamp_of, shown};

pub use lamps::Lamp;
use sheet_reader::{FOUND, NO_ROUTE, PLACES};

// What is shown of a sheet; the places have zeros after the last.
#[derive(Debug, PartialEq, Eq, Drop)]
pub struct Shown {
    pub lamp: Lamp,
    pub cost: u32,
    pub count: u32,
    pub places: [u16; PLACES],
}

// The lamp of an answer's number.
#[tactic(auto, unfolding(crate::specs::Shown::lamp_of))]
pub fn lamp(number: u32) -> Lamp
    ensures { result ≡ lamp_of number }
{
    match number {
        0 => Lamp::Green,
        1..=13 => Lamp::Red,
        14..=15 => Lamp::Amber,
        16 => Lamp::Blue,
        17 => Lamp::White,
        18..=22 => Lamp::Red,
        _ => Lamp::Dark,
    }
}

// The lamp of the read's number. The number alone decides whether what was read is shown: a refused sheet has zeros.
pub fn show(sheet: &[u8]) -> Shown
    ensures { result ≡ shown (read_sheet sheet.now) }
{
    let reading = sheet_reader::read(sheet);
    let lamp = lamp(reading.number);
    let places = reading.places;
    match reading.number {
        FOUND | NO_ROUTE => Shown {
            lamp,
            cost: reading.cost,
            count: reading.count,
            places,
        },
        _ => Shown {
            lamp,
            cost: 0,
            count: 0,
            places: [0u16; PLACES],
        },
    }
}
