// The kinds of sheet, which their writer and their reader share. They are two numbers that a `match` names as they stand; an enum would say
// each of them twice more, once for each direction.
pub const ROUTE: u16 = 17;

pub const NO_ROUTE: u16 = 18;
