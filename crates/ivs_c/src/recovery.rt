// The entry points that read a store back into a job.
// Numbers alone in and out, no Option, Result or enum: C calls these.
ghost use Rattle.std.specs.Prelude.{◌≡◌};
ghost use Rattle.recoverer.specs.Recover.{recovering_work};
ghost use Rattle.store_words.specs.Told.{RecoverTold};

// The words of work that a store of so many bytes needs.
#[unsafe(no_mangle)]
pub extern "C" fn ivs_recover_words(bytes: usize) -> usize
    ensures { result ≡ recovering_work bytes }
{
    ivs::ivs_recover_words(bytes)
}

// The job of a store, whatever its bytes are: the refusal number, 0 for done; the report has all numbers of the answer.
#[unsafe(no_mangle)]
pub extern "C" fn ivs_recover(
    store: &[u8],
    work: &mut [u32],
    out: &mut [u8],
    report: &mut [u64; 16],
) -> u32
    ensures { RecoverTold store.now work.old out.old result work.new out.new report.old report.new }
{
    ivs::ivs_recover(store, work, out, report)
}
