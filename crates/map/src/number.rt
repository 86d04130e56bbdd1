// The papers' numbers that are no refusal of an input (`refusal` has those). They are plain numbers: an answer and a read of a sheet give
// them to a host.
pub const FOUND: u32 = 0;

pub const SPENT: u32 = 16;

pub const NO_ROUTE: u32 = 17;

pub const NO_SHEET: u32 = 18;

pub const NO_JOB: u32 = 19;

// Every number is below this one.
pub const END: usize = 23;
