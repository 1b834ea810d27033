// The rows that are still used: a list of words (outer x 65,536 + inner), put into lent words in order, each once, and grouped by
// subtable. Of n words lent in the list, in work: the words from 0 on, their new places from n on, and from 2n on where each
// subtable's rows begin, with the end behind the last.
#![tactic(auto)]

mod finding;
mod grouping;
mod once;

ghost use Rattle.std.specs.Prelude.{◌+◌, ◌*◌, ◌≤◌, length};
ghost use Rattle.choosing.specs.Lent.{TakenIn, Low, ChosenAt};

pub use crate::finding::write_places;
use crate::grouping::group;
use crate::once::distinct;
use laws::copy_slice;

// How many rows are used, and of how many subtables.
#[derive(Clone, Copy)]
pub struct Chosen {
    pub rows: usize,
    pub tables: usize,
}

// The list at the front, in order.
fn take_in(rows: &[u32], work: &mut [u32])
    requires { length rows.now ≤ length work.old }
    ensures { TakenIn rows.now work.old work.new }
{
    let words = &mut work[..rows.len()];
    copy_slice(words, rows);
    words.sort_unstable();
}

pub fn choose(rows: &[u32], work: &mut [u32]) -> Chosen
    requires { (3 * length rows.now + 1 ≤ length work.old) × Low (length rows.now) rows.now }
    ensures { ChosenAt rows.now work.old work.new result.rows result.tables }
{
    let n = rows.len();
    take_in(rows, work);
    let k = distinct(work, n);
    let t = group(work, n, k);
    Chosen { rows: k, tables: t }
}
