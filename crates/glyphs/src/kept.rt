// How many entries of a glyph map are written: one that repeats the one before it is not, where only repeats follow.
ghost use Rattle.std.specs.Prelude.{◌≡◌, ◌≤◌, length};
ghost use Rattle.glyphs.specs.Packing.{count_of};

#[tactic(auto, unfolding(crate::specs::Packing::count_of))]
pub fn kept(words: &[u32]) -> usize
    ensures value { result ≡ count_of words.now }
    ensures upper_bound { result ≤ length words.now }
{
    for i in (1..words.len()).rev() {
        if words[i] != words[i - 1] {
            return i + 1;
        }
    }
    words.len().min(1)
}
