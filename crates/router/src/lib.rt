// The public call: from an input and two lent areas to the answer, with the route sheet in the sheet area.
#![tactic(auto)]

ghost use Rattle.std.specs.Prelude.{◌≡◌, ◌≤◌};
ghost use Rattle.model.specs.Limits.{max_places, max_arcs};
ghost use Rattle.answer.specs.Numbers.{answer_of};
ghost use Rattle.map.specs.Refusals.{refusal_number};
ghost use Rattle.router.specs.Call.{Routed, RoutedFor};
ghost use Rattle.router.specs.Steps.{HasRoom, room_number, Ready, Writable, Written, numbers_of, Concludable, Concluded};

use answer::Answer;
use map::refusal::Refusal;
use map::{Job, Site, number};
use search::Verdict;

// Writes the sheet of a verdict, if it has one, and gives its bytes.
fn write_sheet(verdict: Verdict, site: Site, work: &[u32], sheet: &mut [u8]) -> u32
    requires { Writable site verdict work.now sheet.old }
    ensures { Written site verdict work.now sheet.old result sheet.new }
{
    match verdict {
        Verdict::Spent(_) => 0,
        Verdict::NoRoute(_) => sheet_writer::no_route(sheet, site.start),
        Verdict::Routed(v) => sheet_writer::route(sheet, work, site.places, v.goal, v.cost),
    }
}

fn numbers(verdict: Verdict, bytes: u32) -> Answer
    ensures { answer_of result ≡ numbers_of verdict bytes }
{
    match verdict {
        Verdict::Spent(v) => Answer {
            number: number::SPENT,
            cost: 0,
            limit: 0,
            floor: v.floor,
            expansions: v.expansions,
            queries: v.queries,
            sheet_bytes: bytes,
        },
        Verdict::NoRoute(v) => Answer {
            number: number::NO_ROUTE,
            cost: 0,
            limit: v.limit,
            floor: 0,
            expansions: v.expansions,
            queries: v.queries,
            sheet_bytes: bytes,
        },
        Verdict::Routed(v) => Answer {
            number: number::FOUND,
            cost: v.cost,
            limit: v.limit,
            floor: 0,
            expansions: v.expansions,
            queries: v.queries,
            sheet_bytes: bytes,
        },
    }
}

// How every search ends a call: with its sheet, zeros in the words that document 01 asks for, and its numbers.
fn conclude(verdict: Verdict, site: Site, work: &mut [u32], sheet: &mut [u8]) -> Answer
    requires { Concludable site verdict work.old sheet.old }
    ensures { Concluded site verdict work.old sheet.old result work.new sheet.new }
{
    let bytes = write_sheet(verdict, site, work, sheet);
    let need = site.words();
    area::fill(&mut work[0..need], 0);
    numbers(verdict, bytes)
}

// An accepted input is loaded and searched.
fn accepted(input: &[u8], job: Job, work: &mut [u32], sheet: &mut [u8]) -> Answer
    requires { HasRoom input.now job work.old sheet.old }
    ensures { Routed input.now work.old sheet.old result work.new sheet.new }
{
    let site = job.site;
    load::load(input, job, work);
    let verdict = search::search(work, site, job.allowance);
    conclude(verdict, site, work, sheet)
}

// 14 or 15, where an area is too short for the map.
fn room(site: Site, words: usize, bytes: usize) -> Result<(), Refusal>
    requires { (site.places ≤ max_places) × (site.arcs ≤ max_arcs) }
    ensures { refusal_number result ≡ room_number site words bytes }
{
    if words < site.words() {
        return Err(Refusal::ShortWork);
    }
    if bytes < site.bytes() {
        return Err(Refusal::ShortSheet);
    }
    Ok(())
}

// What an input states that none of its own conditions turns down, where areas of so many words and bytes are large enough.
fn ready(input: &[u8], words: usize, bytes: usize) -> Result<Job, Refusal>
    ensures { Ready input.now words bytes result }
{
    let job = judge::judge(input)?;
    room(job.site, words, bytes)?;
    Ok(job)
}

pub fn route(input: &[u8], work: &mut [u32], sheet: &mut [u8]) -> Answer
    ensures { Routed input.now work.old sheet.old result work.new sheet.new }
{
    match ready(input, work.len(), sheet.len()) {
        Ok(job) => accepted(input, job, work, sheet),
        Err(refusal) => answer::refused(refusal.number()),
    }
}

// The call for a host: the number comes back, and the seven numbers are in the lent words.
pub fn r3_route(input: &[u8], work: &mut [u32], sheet: &mut [u8], words: &mut [u32]) -> u32
    ensures { RoutedFor input.now work.old sheet.old words.old result
        work.new sheet.new words.new }
{
    let answer = route(input, work, sheet);
    answer::put_numbers(words, answer);
    answer.number
}
