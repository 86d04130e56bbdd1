// The export of the sheet reader for C: one call, under the symbol that host/r3.h declares.
#![tactic(auto)]

ghost use Rattle.std.specs.Prelude.{◌≡◌};
ghost use Rattle.model.specs.Sheets.{read_sheet, host_answer};

// What the host asks of a sheet, by a question number: 0 the read's number, 1 the cost, 2 the count of places, 3 + i place i.
#[unsafe(no_mangle)]
pub extern "C" fn r3_sheet(sheet: &[u8], question: u32) -> u32
    ensures { result ≡ host_answer (read_sheet sheet.now) question }
{
    sheet_reader::r3_sheet(sheet, question)
}
