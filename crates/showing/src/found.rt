// Which part shows an id, once the job was built again.
ghost use Rattle.std.specs.Prelude.{◌≡◌, ◌<◌, length};
ghost use Rattle.finishing.specs.Answers.{built};
ghost use Rattle.showing.specs.Answers.{part_of, shown_of};
ghost use Rattle.showing.specs.Parts.{asked_part, found_of};
ghost use Rattle.showing.specs.LentParts.{Fits};

use crate::ends::end_part;
use crate::row_parts::row_part;
use finding::{check_asked, first_place};
use finishing::Report;
use refusals::Refused;

// Where a part starts and how long it is, in the one that was asked for.
#[derive(Clone, Copy, Debug, PartialEq, Eq)]
pub enum Part {
    InJob(usize, usize),
    InStore(usize, usize),
}

// The part of the one that was asked for: 0 the job, else the store.
#[tactic(auto, unfolding(crate::specs::Parts::asked_part))]
fn part_asked(job: &[u8], store: &[u8], ids: &[u32], map: &[u32], id: u32, what: u32) -> Part
    requires { id < length map.now }
    ensures { part_of result ≡ asked_part job.now store.now ids.now map.now id what }
{
    if what == 0 {
        let e = end_part(job, first_place(ids, id));
        return Part::InJob(e.at, e.long);
    }
    let r = row_part(store, map[id as usize]);
    Part::InStore(r.at, r.long)
}

// Of what a build answered and left.
#[tactic(auto, unfolding(crate::specs::Parts::found_of))]
pub fn find(
    answer: Result<Report, Refused>,
    job: &[u8],
    store: &[u8],
    out: &[u8],
    ids: &[u32],
    map: &[u32],
    id: u32,
    what: u32,
) -> Result<Part, Refused>
    requires { Fits (built answer) out.now map.now }
    ensures { shown_of result ≡ found_of (built answer) job.now store.now out.now ids.now map.now id what }
{
    let done = answer?;
    check_asked(done.ids, done.bytes, id, id, store, out)?;
    Ok(part_asked(job, store, ids, map, id, what))
}
