// Two words as one number, the high word before the low one. One comparison then orders pairs by the high word and, of those with the
// same, by the low one.
ghost use Rattle.std.specs.Prelude.{◌≡◌, ◌+◌, ◌*◌, ◌/◌, ◌%◌, ◌<◌};

// What one more of the high word adds.
const HIGH: u64 = 4294967296;

// The low word as an index, since one that is cut to a word again makes the open list slower.
pub fn join(high: u32, low: usize) -> u64
    requires { low < 4294967296 }
    ensures { result ≡ high * 4294967296 + low }
{
    u64::from(high) * HIGH + low as u64
}

pub fn high(pair: u64) -> u32
    ensures { result ≡ pair / 4294967296 }
{
    (pair / HIGH) as u32
}

pub fn low(pair: u64) -> u32
    ensures { result ≡ pair % 4294967296 }
{
    (pair % HIGH) as u32
}
