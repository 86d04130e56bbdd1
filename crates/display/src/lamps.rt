// The colours of the display's lamp.
#[derive(Clone, Copy, Debug, PartialEq, Eq)]
pub enum Lamp {
    Green,
    Red,
    Amber,
    Blue,
    White,
    Dark,
}
