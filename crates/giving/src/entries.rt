// A set's values laid out by listed region, and looked at again when the row has been read.
ghost use Rattle.std.specs.Prelude.{◌≡◌, ℕ, ◌+◌, ◌*◌, ◌<◌, ◌≤◌, length};
ghost use Rattle.giving.specs.Lent.{aim_at, Clean, EntriesFit, Laid, Met};

use laws::wide;

// The word of zero.
pub const ZERO: u32 = 0x8000_0000;

// Tables in work: from `to` on, by region index, the listed region of the same coordinates, or a number that is no listed region's; from `values` on a
// word for each of so many listed regions; from `zeros` on, for each byte of the store, how many zeros there are from it on.
#[derive(Clone, Copy)]
pub struct Aims {
    pub to: usize,
    pub listed: usize,
    pub values: usize,
    pub zeros: usize,
}

// Lays the values of so many entries, from `start` on, out by listed region, the last entry first. Or one names a region that is not listed.
pub fn lay(work: &mut [u32], start: usize, count: usize, t: Aims) -> bool
    requires entries_fit { EntriesFit work.old start count t }
    requires clean { Clean work.old t }
    ensures { Laid start count t work.old work.new result }
{
    for i in (0..count).rev() {
        let x = start + 2 * i;
        let q = wide(work[t.to + wide(work[x])]);
        if t.listed <= q {
            return false;
        }
        work[t.values + q] = work[x + 1];
    }
    true
}

// Whether the word of each entry's region is that of zero.
pub fn all_met(work: &[u32], start: usize, count: usize, t: Aims) -> bool
    requires entries_fit { EntriesFit work.now start count t }
    requires by_index { (i : ℕ) → i < count → aim_at work.now t (start + 2 * i) < t.listed }
    ensures { Met work.now start count t result }
{
    for i in 0..count {
        let q = wide(work[t.to + wide(work[start + 2 * i])]);
        if work[t.values + q] != ZERO {
            return false;
        }
    }
    true
}
