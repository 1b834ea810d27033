// Sorted words, each once.
ghost use Rattle.std.specs.Prelude.{◌≡◌, ◌≤◌, ◌<◌, length};
ghost use Rattle.choosing.specs.Lent.{is_new, InOrder, Once};

// The word at i is not the last of the k that were kept.
#[tactic(auto, unfolding(crate::specs::Lent::is_new))]
fn new_word(work: &[u32], k: usize, i: usize) -> bool
    requires { (k ≤ i) × (i < length work.now) }
    ensures { result ≡ is_new work.now k i }
{
    k == 0 || work[k - 1] != work[i]
}

// Moves the n words at the front up over those that stood before; answers how many are left.
pub fn distinct(work: &mut [u32], n: usize) -> usize
    requires { (n ≤ length work.old) × InOrder n work.old }
    ensures { Once n work.old work.new result }
{
    let mut k = 0;
    for i in 0..n {
        if new_word(work, k, i) {
            work[k] = work[i];
            k += 1;
        }
    }
    k
}
