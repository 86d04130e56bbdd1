// The map writer: from an accepted input the same map and job in one canonical form.
#![tactic(auto)]

ghost use Rattle.std.specs.Prelude.{◌≡◌, ◌≤◌, ◌<◌, ◌^◌};
ghost use Rattle.model.specs.Answer.{answer};
ghost use Rattle.model.specs.Limits.{max_places, max_arcs};
ghost use Rattle.answer.specs.Numbers.{answer_of};
ghost use Rattle.map.specs.Refusals.{refusal_number};
ghost use Rattle.load.specs.Loaded.{Loadable};
ghost use Rattle.map_writer.specs.Call.{Wrote, WroteFor};
ghost use Rattle.map_writer.specs.Steps.{HasRoom, room_number, Ready, InOrder};

use answer::Answer;
use map::refusal::Refusal;
use map::{Job, Site, number, record};

// Puts the lanes of an accepted input in order. At goals the estimate is the default, which is not written.
fn order(input: &[u8], job: Job, work: &mut [u32])
    requires { Loadable input.now job work.old }
    ensures { InOrder input.now job.site work.old work.new }
{
    let site = job.site;
    let places = site.places;
    load::prepare(input, job, job.default, work);
    let factors = record::factors(input, job.factors_at);
    lane_rows::place_records(input, places, &factors, work);
    lane_rows::sort_rows(work, places);
}

fn wrote(bytes: usize) -> Answer
    requires { bytes < 2 ^ 32 }
    ensures { answer_of result ≡ answer 0 0 0 0 0 0 bytes }
{
    Answer {
        number: number::FOUND,
        cost: 0,
        limit: 0,
        floor: 0,
        expansions: 0,
        queries: 0,
        sheet_bytes: bytes as u32,
    }
}

// An accepted input is put in order and written.
fn accepted(input: &[u8], job: Job, work: &mut [u32], output: &mut [u8]) -> Answer
    requires { HasRoom input.now job work.old output.old }
    ensures { Wrote input.now work.old output.old result work.new output.new }
{
    let site = job.site;
    order(input, job, work);
    let bytes = map_records::put_map(output, input, job, work);
    let need = site.words();
    area::fill(&mut work[0..need], 0);
    wrote(bytes)
}

// 14 or 15, where an area is too short for the map: the output area is asked to be as long as the input.
fn room(site: Site, input: usize, words: usize, bytes: usize) -> Result<(), Refusal>
    requires { (site.places ≤ max_places) × (site.arcs ≤ max_arcs) }
    ensures { refusal_number result ≡ room_number site input words bytes }
{
    if words < site.words() {
        return Err(Refusal::ShortWork);
    }
    if bytes < input {
        return Err(Refusal::ShortSheet);
    }
    Ok(())
}

// What an input states that none of its own conditions turns down, where areas of so many words and bytes are large enough.
fn ready(input: &[u8], words: usize, bytes: usize) -> Result<Job, Refusal>
    ensures { Ready input.now words bytes result }
{
    let job = judge::judge(input)?;
    room(job.site, input.len(), words, bytes)?;
    Ok(job)
}

pub fn write(input: &[u8], work: &mut [u32], output: &mut [u8]) -> Answer
    ensures { Wrote input.now work.old output.old result work.new output.new }
{
    match ready(input, work.len(), output.len()) {
        Ok(job) => accepted(input, job, work, output),
        Err(refusal) => answer::refused(refusal.number()),
    }
}

// The call for a host: the number comes back, and the seven numbers are in the lent words.
pub fn r3_write_map(input: &[u8], work: &mut [u32], output: &mut [u8], words: &mut [u32]) -> u32
    ensures { WroteFor input.now work.old output.old words.old result
        work.new output.new words.new }
{
    let answer = write(input, work, output);
    answer::put_numbers(words, answer);
    answer.number
}
