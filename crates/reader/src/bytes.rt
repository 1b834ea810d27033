// Numbers of bytes, the highest byte first.
ghost use Rattle.std.specs.Prelude.{◌+◌, ◌≤◌, length};
ghost use Rattle.reader.specs.Store.{Word};

// The number that the k bytes from at are.
#[tactic(auto, unfolding(laws::specs::Bytes::be))]
pub fn be(s: &[u8], at: usize, k: usize) -> usize
    requires k_bound { k ≤ 4 }
    requires k_in_bounds { at + k ≤ length s.now }
    ensures { Word k s.now at result }
{
    let mut x = 0;
    for byte in &s[at..at + k] {
        x = x * 256 + usize::from(*byte);
    }
    x
}
