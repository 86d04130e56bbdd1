// What stands in a day's input: the map, up to the first job, and behind it all that counts as a job.
ghost use Rattle.std.specs.Prelude.{◌≡◌, ◌≤◌, length, drop};
ghost use Rattle.jobs.specs.Entries.{map_in, entries};

use map::record::Kind;
use map::walk::Records;

// How many bytes the map has.
pub fn map_bytes(input: &[u8]) -> usize
    ensures { result ≡ length (map_in input.now) }
{
    let mut bytes = 0;
    for record in Records::from(input, 0) {
        let Ok(r) = record else {
            return bytes;
        };
        if r.kind == Kind::Job as u16 {
            return bytes;
        }
        bytes = r.end;
    }
    bytes
}

// How many entries stand behind a map of so many bytes: whole records, and one for a broken tail.
pub fn count(input: &[u8], map: usize) -> usize
    requires { map ≡ length (map_in input.now) }
    ensures { result ≡ length (entries input.now) }
{
    let mut entries: usize = 0;
    for _record in Records::from(input, map) {
        entries += 1;
    }
    entries
}
