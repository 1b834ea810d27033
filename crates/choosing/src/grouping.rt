// Rising words grouped by subtable: the new place of each, and where each subtable's rows begin.
ghost use Rattle.std.specs.Prelude.{◌≡◌, ◌+◌, ◌*◌, ◌≤◌, ◌<◌, length, get_or};
ghost use Rattle.choosing.specs.Lent.{Rising, Low, opens, Grouped};

// The word at j is the first of its subtable.
#[tactic(auto, unfolding(crate::specs::Lent::opens))]
fn opens_table(work: &[u32], j: usize) -> bool
    requires { j < length work.now }
    ensures { result ≡ opens work.now j }
{
    j == 0 || work[j - 1] / 65536 != work[j] / 65536
}

// The words one after the other, where the first subtable's rows begin at 0.
fn spread(work: &mut [u32], n: usize, k: usize) -> usize
    requires { (k ≤ n) × (3 * n + 1 ≤ length work.old) × Rising k work.old × Low k work.old × (get_or work.old (2 * n) 0 ≡ 0) }
    ensures { Grouped n k work.old work.new result }
{
    let mut g = 0;
    for j in 0..k {
        if opens_table(work, j) {
            work[n + j] = (g * 65536) as u32;
            g += 1;
        } else {
            work[n + j] = work[n + j - 1] + 1;
        }
        work[2 * n + g] = (j + 1) as u32;
    }
    g
}

// Of k words at the front; their places stand from n on, and where the rows of each subtable begin from 2n on. Answers how many
// subtables there are.
pub fn group(work: &mut [u32], n: usize, k: usize) -> usize
    requires { (k ≤ n) × (3 * n + 1 ≤ length work.old) × Rising k work.old × Low k work.old }
    ensures { Grouped n k work.old work.new result }
{
    work[2 * n] = 0;
    spread(work, n, k)
}
