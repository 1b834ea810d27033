// The library's entry points. They turn answers into numbers, and do nothing else. What a host links (libivs.a) is `ivs_c`, which exports them.
// A function for each C call, with numbers alone in and out, no Option, Result or enum: C calls it by `ivs_c`.
#![tactic(auto)]

mod foretelling;
mod glyph_map;
mod panel_build;
mod part;
mod recovery;
mod show;
mod used_rows;
mod verdict;
mod why_rows;
mod width_table;

ghost use Rattle.std.specs.Prelude.{◌≡◌};
ghost use Rattle.said.specs.Work.{regions_at_head, building_work};
ghost use Rattle.reader.specs.Store.{read_store};
ghost use Rattle.finishing.specs.Buffers.{buffers};
ghost use Rattle.call.specs.Lending.{lending, leaves};
ghost use Rattle.numbers.specs.ReadWords.{read_word};
ghost use Rattle.ivs.specs.Answered.{Answered};

pub use crate::foretelling::ivs_forecast;
pub use crate::glyph_map::{ivs_read_glyph, ivs_write_glyphs};
pub use crate::panel_build::ivs_build_panel;
pub use crate::part::ivs_part;
pub use crate::recovery::{ivs_recover, ivs_recover_words};
pub use crate::show::ivs_show;
pub use crate::used_rows::{ivs_keep, ivs_keep_words};
pub use crate::verdict::{ivs_judge, ivs_judge_words};
pub use crate::why_rows::ivs_why;
pub use crate::width_table::{ivs_read_width, ivs_write_widths};
use packer::Profile;
use pairs::Pair;
use reporting::tell;

// The words of work that a job of so many records needs, with so many regions at its head; 0 above the record limit.
pub fn ivs_work_words(records: usize, regions: usize) -> usize
    ensures { result ≡ building_work records regions }
{
    job::work_words(records, regions)
}

// The regions at a job's head.
pub fn ivs_head_regions(axes: u32, job: &[u8]) -> usize
    ensures { result ≡ regions_at_head axes job.now }
{
    job::head_regions(axes, job)
}

// The value of a region in a row of a store, as a number.
pub fn ivs_read(store: &[u8], outer: u32, inner: u32, region: u32) -> u64
    ensures { result ≡ read_word (read_store store.now outer inner region) }
{
    numbers::as_word(reader::read(store, outer, inner, region))
}

// One build: the refusal number, 0 for done; the report has all numbers of the answer.
pub fn ivs_build(
    axes: u32,
    mode: u32,
    job: &[u8],
    work: &mut [u32],
    pairs: &mut [Pair],
    out: &mut [u8],
    ids: &mut [u32],
    map: &mut [u32],
    log: &mut [u32],
    origins: &mut [u32],
    report: &mut [u64; 16],
) -> u32
    ensures { Answered (lending axes mode job.now work.old pairs.old (buffers out.old ids.old map.old log.old origins.old)) result (leaves work.new pairs.new (buffers out.new ids.new map.new log.new origins.new)) report.old report.new }
{
    let answer = packer::build(
        Profile::Plain,
        axes,
        mode,
        job,
        work,
        pairs,
        out,
        ids,
        map,
        log,
        origins,
    );
    tell(report, job, answer)
}
