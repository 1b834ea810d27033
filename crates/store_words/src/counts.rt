// Four counts told in a report.
ghost use Rattle.std.specs.Prelude.{◌≡◌};
ghost use Rattle.store_words.specs.StoreWords.{count_words};

// Done, with the four counts in words 2 to 5.
#[tactic(auto, unfolding(crate::specs::StoreWords::count_words))]
pub fn count_words(bytes: usize, second: usize, third: usize, fourth: usize) -> [u64; 16]
    ensures { result ≡ count_words bytes second third fourth }
{
    let (bytes, second, third, fourth) = (bytes as u64, second as u64, third as u64, fourth as u64);
    [
        0, 0, bytes, second, third, fourth, 0, 0, 0, 0, 0, 0, 0, 0, 0, 0,
    ]
}
