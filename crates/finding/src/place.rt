// The first place of a number in some words.
ghost use Rattle.std.specs.Prelude.{◌≡◌};
ghost use Rattle.finding.specs.First.{first_at};

// Counted from 0; as many as there are words where it stands nowhere.
// A number and no Option: the promise is `first_at`, of which the theorems on reasons and parts speak (why_told, why_calls).
pub fn first_place(words: &[u32], x: u32) -> usize
    ensures { result ≡ first_at x words.now }
{
    words
        .iter()
        .position(|word| *word == x)
        .unwrap_or(words.len())
}
