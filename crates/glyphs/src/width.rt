// How wide the entries of a glyph map are: the bits of the inner numbers, and the bytes of an entry.
ghost use Rattle.std.specs.Prelude.{◌≡◌, ◌≤◌, ◌<◌, ◌^◌};
ghost use Rattle.glyphs.specs.Packing.{together, inner_bit_count, entry_of, bytes_for_entry};

// All words ored.
pub fn together(words: &[u32]) -> u32
    ensures { result ≡ together words.now }
{
    let mut all = 0;
    for word in words {
        all |= *word;
    }
    all
}

// The bits that the inner numbers need together: what the leading zeros of all of them ored leave of 16.
#[tactic(auto, unfolding(crate::specs::Packing::inner_bit_count))]
pub fn inner_bits(all: u32) -> usize
    ensures value { result ≡ inner_bit_count all }
    ensures in_range { (1 ≤ result) × (result ≤ 16) }
{
    let inner = (all % 65536) as u16;
    (16 - inner.leading_zeros()).max(1) as usize
}

// How many numbers the inner bits have.
pub fn power(bits: usize) -> usize
    requires { bits ≤ 16 }
    ensures value { result ≡ 2 ^ bits }
    ensures in_range { (1 ≤ result) × (result ≤ 65536) }
{
    1usize << bits
}

// A word as an entry: its outer number above the inner bits.
#[tactic(auto, unfolding(crate::specs::Packing::entry_of))]
pub fn entry(bits: usize, word: u32) -> u32
    requires { bits ≤ 16 }
    ensures { result ≡ entry_of bits word }
{
    let outer = (word / 65536) as usize;
    let inner = (word % 65536) as usize;
    (outer * power(bits) + inner) as u32
}

// The fewest bytes that hold an entry.
#[tactic(auto, unfolding(crate::specs::Packing::bytes_for_entry))]
pub fn bytes_for(entry: u32) -> usize
    ensures value { result ≡ bytes_for_entry entry }
    ensures in_range { (1 ≤ result) × (result ≤ 4) }
{
    if entry < 256 {
        return 1;
    }
    if entry < 65536 {
        return 2;
    }
    if entry < 16777216 {
        return 3;
    }
    4
}
