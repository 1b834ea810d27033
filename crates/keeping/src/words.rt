// How much work a call needs, and how much of an output a store can take.
ghost use Rattle.std.specs.Prelude.{◌≡◌, ◌≤◌};
ghost use Rattle.keeping.specs.Keeping.{keeping_work, room_of};

// The published number, of a store's bytes and the entries of the list; 0 for more than any memory holds.
#[tactic(auto, unfolding(crate::specs::Keeping::keeping_work))]
pub fn keep_words(bytes: usize, rows: usize) -> usize
    ensures { result ≡ keeping_work bytes rows }
{
    if 0x7fff_ffff_ffff_ffff < bytes {
        return 0;
    }
    if 0x1fff_ffff_ffff_ffff < rows {
        return 0;
    }
    3 * rows + bytes + 65536
}

// The most bytes of a store: offsets have four bytes.
const LONGEST: usize = 4294967295;

#[tactic(auto, unfolding(crate::specs::Keeping::room_of))]
pub fn room(long: usize) -> usize
    ensures { (result ≡ room_of long) × (result ≤ long) × (result ≤ 4294967295) }
{
    long.min(LONGEST)
}
