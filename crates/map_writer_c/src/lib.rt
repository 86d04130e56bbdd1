// The export of the map writer for C: one call, under the symbol that host/r3.h declares.
#![tactic(auto)]

ghost use Rattle.map_writer.specs.Call.{WroteFor};

// The call for a host: the number comes back, and the seven numbers are in the lent words.
#[unsafe(no_mangle)]
pub extern "C" fn r3_write_map(
    input: &[u8],
    work: &mut [u32],
    output: &mut [u8],
    words: &mut [u32],
) -> u32
    ensures { WroteFor input.now work.old output.old words.old result
        work.new output.new words.new }
{
    map_writer::r3_write_map(input, work, output, words)
}
