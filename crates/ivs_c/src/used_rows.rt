// The entry points that drop the rows of a store which nobody uses.
// Numbers alone in and out, no Option, Result or enum: C calls these.
ghost use Rattle.std.specs.Prelude.{◌≡◌};
ghost use Rattle.keeping.specs.Keeping.{keeping_work};
ghost use Rattle.store_words.specs.Told.{KeepTold};

// The words of work that a store of so many bytes and a list of so many entries need; 0 for more than any memory holds.
#[unsafe(no_mangle)]
pub extern "C" fn ivs_keep_words(bytes: usize, rows: usize) -> usize
    ensures { result ≡ keeping_work bytes rows }
{
    ivs::ivs_keep_words(bytes, rows)
}

// The store with only the rows of a list, and each entry's new place: the refusal number, 0 for done; the report has all numbers of the answer.
#[unsafe(no_mangle)]
pub extern "C" fn ivs_keep(
    store: &[u8],
    rows: &[u32],
    work: &mut [u32],
    out: &mut [u8],
    places: &mut [u32],
    report: &mut [u64; 16],
) -> u32
    ensures { KeepTold store.now rows.now work.old out.old places.old result work.new out.new places.new report.old report.new }
{
    ivs::ivs_keep(store, rows, work, out, places, report)
}
