// Rows that nobody uses dropped: `keep` writes a store with only the rows of a list, and each entry's new place.
#![tactic(auto)]

mod naming;
mod there;
mod words;

ghost use Rattle.std.specs.Prelude.{◌≡◌, ℕ, ◌+◌, ◌*◌, ◌≤◌, length, get_or};
ghost use Rattle.std.proofs.Math.Option.{some};
ghost use Rattle.stores.specs.Stores.{store_at, parse};
ghost use Rattle.keeping.specs.LentKeep.{Sound};
ghost use Rattle.keeping.specs.Answers.{kept};
ghost use Rattle.keeping.specs.Keeping.{last_of, keep_parsed, keep_of, out_left, places_left, work_left};

use crate::naming::name_regions;
use crate::there::rows_there;
pub use crate::words::keep_words;
use crate::words::room;
use choosing::{choose, write_places};
use cutting::{tables_size, write_store};
use reader::be;
use refusals::Refusal;
use stores::whole_ok;

// How much is kept.
#[derive(Clone, Copy, Debug, PartialEq, Eq)]
pub struct KeptCounts {
    pub bytes: usize,
    pub tables: usize,
    pub regions: usize,
    pub rows: usize,
}

// Of a sound store and entries that are rows of it, with room for the places.
fn keep_rows(
    store: &[u8],
    rows: &[u32],
    work: &mut [u32],
    out: &mut [u8],
    places: &mut [u32],
) -> Result<KeptCounts, Refusal>
    requires { Sound store.now rows.now work.old (length places.old) }
    ensures value { kept result ≡ last_of (store_at store.now) rows.now (length out.old) }
    ensures out_after { out.new ≡ out_left (some (store_at store.now)) rows.now (kept result) out.old }
    ensures places_after { places.new ≡ places_left (some (store_at store.now)) rows.now (kept result) places.old }
{
    let n = rows.len();
    let c = choose(rows, work);
    let t = c.tables;
    let size = tables_size(store, work, n, t);
    let end = room(out.len());
    if end < 12 + 4 * t + size {
        return Err(Refusal::KeptShort);
    }
    let kept = name_regions(store, work, n, t);
    let list = be(store, 2, 4);
    let first = 12 + 4 * t + 6 * be(store, list, 2) * kept;
    if end < first + size {
        return Err(Refusal::KeptShort);
    }
    let bytes = write_store(out, store, work, n, t, kept, first);
    write_places(work, c.rows, n, rows, places);
    Ok(KeptCounts {
        bytes,
        tables: t,
        regions: kept,
        rows: c.rows,
    })
}

// With zeros in work.
fn keep_in(
    store: &[u8],
    rows: &[u32],
    work: &mut [u32],
    out: &mut [u8],
    places: &mut [u32],
) -> Result<KeptCounts, Refusal>
    requires { (3 * length rows.now + length store.now + 65536 ≤ length work.old) × ((k : ℕ) → get_or work.old k 0 ≡ 0) }
    ensures value { kept result ≡ keep_parsed (parse store.now) rows.now (length out.old) (length places.old) }
    ensures out_after { out.new ≡ out_left (parse store.now) rows.now (kept result) out.old }
    ensures places_after { places.new ≡ places_left (parse store.now) rows.now (kept result) places.old }
{
    if !whole_ok(store, work) {
        return Err(Refusal::BadStore);
    }
    if !rows_there(store, rows) {
        return Err(Refusal::NoRow);
    }
    if places.len() < rows.len() {
        return Err(Refusal::PlacesShort);
    }
    keep_rows(store, rows, work, out, places)
}

// Takes every store and every list. Work is as it was after refusal 4, else all zeros; output and places are written only where it is
// done.
pub fn keep(
    store: &[u8],
    rows: &[u32],
    work: &mut [u32],
    out: &mut [u8],
    places: &mut [u32],
) -> Result<KeptCounts, Refusal>
    ensures value { kept result ≡ keep_of store.now rows.now (length work.old) (length out.old) (length places.old) }
    ensures out_after { out.new ≡ out_left (parse store.now) rows.now (kept result) out.old }
    ensures places_after { places.new ≡ places_left (parse store.now) rows.now (kept result) places.old }
    ensures work_after { work.new ≡ work_left (length store.now) (length rows.now) work.old }
{
    if work.len() < keep_words(store.len(), rows.len()) {
        return Err(Refusal::WorkShort);
    }
    work.fill(0);
    let answer = keep_in(store, rows, work, out, places);
    work.fill(0);
    answer
}
