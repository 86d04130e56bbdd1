// The export of the router for C: one call, under the symbol that host/r3.h declares.
#![tactic(auto)]

ghost use Rattle.router.specs.Call.{RoutedFor};

// The call for a host: the number comes back, and the seven numbers are in the lent words.
#[unsafe(no_mangle)]
pub extern "C" fn r3_route(
    input: &[u8],
    work: &mut [u32],
    sheet: &mut [u8],
    words: &mut [u32],
) -> u32
    ensures { RoutedFor input.now work.old sheet.old words.old result
        work.new sheet.new words.new }
{
    router::r3_route(input, work, sheet, words)
}
