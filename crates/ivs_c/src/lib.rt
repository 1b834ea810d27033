// The entry points of `ivs` under their C names: what a host links (libivs.a). Each calls the function of `ivs` that has its name.
// Numbers alone in and out, no Option, Result or enum: C calls these.
#![tactic(auto)]

mod foretelling;
mod glyph_map;
mod panel_build;
mod part;
mod recovery;
mod show;
mod used_rows;
mod verdict;
mod why_rows;
mod width_table;

ghost use Rattle.std.specs.Prelude.{◌≡◌};
ghost use Rattle.said.specs.Work.{regions_at_head, building_work};
ghost use Rattle.reader.specs.Store.{read_store};
ghost use Rattle.finishing.specs.Buffers.{buffers};
ghost use Rattle.call.specs.Lending.{lending, leaves};
ghost use Rattle.numbers.specs.ReadWords.{read_word};
ghost use Rattle.ivs.specs.Answered.{Answered};

use pairs::Pair;

// The words of work that a job of so many records needs, with so many regions at its head; 0 above the record limit.
#[unsafe(no_mangle)]
pub extern "C" fn ivs_work_words(records: usize, regions: usize) -> usize
    ensures { result ≡ building_work records regions }
{
    ivs::ivs_work_words(records, regions)
}

// The regions at a job's head.
#[unsafe(no_mangle)]
pub extern "C" fn ivs_head_regions(axes: u32, job: &[u8]) -> usize
    ensures { result ≡ regions_at_head axes job.now }
{
    ivs::ivs_head_regions(axes, job)
}

// The value of a region in a row of a store, as a number.
#[unsafe(no_mangle)]
pub extern "C" fn ivs_read(store: &[u8], outer: u32, inner: u32, region: u32) -> u64
    ensures { result ≡ read_word (read_store store.now outer inner region) }
{
    ivs::ivs_read(store, outer, inner, region)
}

// One build: the refusal number, 0 for done; the report has all numbers of the answer.
#[unsafe(no_mangle)]
pub extern "C" fn ivs_build(
    axes: u32,
    mode: u32,
    job: &[u8],
    work: &mut [u32],
    pairs: &mut [Pair],
    out: &mut [u8],
    ids: &mut [u32],
    map: &mut [u32],
    log: &mut [u32],
    origins: &mut [u32],
    report: &mut [u64; 16],
) -> u32
    ensures { Answered (lending axes mode job.now work.old pairs.old (buffers out.old ids.old map.old log.old origins.old)) result (leaves work.new pairs.new (buffers out.new ids.new map.new log.new origins.new)) report.old report.new }
{
    ivs::ivs_build(
        axes, mode, job, work, pairs, out, ids, map, log, origins, report,
    )
}
