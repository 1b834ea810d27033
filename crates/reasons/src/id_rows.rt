// The row of an id in a final group. A row in work is the number of a set, whose id stands in a table of its own.
ghost use Rattle.std.specs.Prelude.{◌≡◌};
ghost use Rattle.finding.specs.First.{first_at};
ghost use Rattle.reasons.specs.LentReasons.{AmongFit, ids_at, RowsIn, ids_in};

use encoder::Places;

// Its place among n rows; n where it has none there: `first_at`, as in finding.
fn place_among(work: &[u32], ids: usize, rows: usize, n: usize, x: u32) -> usize
    requires { AmongFit ids rows n work.now }
    ensures { result ≡ first_at x (ids_at ids rows n work.now) }
{
    for q in 0..n {
        let set = work[rows + q] as usize;
        if work[ids + set] == x {
            return q;
        }
    }
    n
}

// Its place among the rows of group g.
pub fn place_in(work: &[u32], p: Places, g: usize, x: u32) -> usize
    requires { RowsIn p g work.now }
    ensures { result ≡ first_at x (ids_in p work.now g) }
{
    let group = p.finals + 3 * g;
    let rows = work[group + 1] as usize;
    let n = work[group + 2] as usize;
    place_among(work, p.ids, rows, n, x)
}
