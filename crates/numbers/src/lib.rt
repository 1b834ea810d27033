// Answers as the numbers that a host gets.
#![tactic(auto)]

ghost use Rattle.std.specs.Prelude.{◌≡◌};
ghost use Rattle.laws.specs.Signed.{twos};
ghost use Rattle.numbers.specs.GlyphWords.{glyphs_word, entry_word};
ghost use Rattle.numbers.specs.ReadWords.{read_word};
ghost use Rattle.numbers.specs.WidthWords.{widths_word};

use glyphs::WriteError;
use reader::ReadError;

// The 32 bits of a value, as a number.
fn bits(v: i32) -> u64
    ensures { result ≡ twos 4 v }
{
    u64::from(v.cast_unsigned())
}

// A reading as a number. High half: 0 written, 1 no column, else the refusal number; low half: the value's 32 bits.
#[tactic(auto, unfolding(crate::specs::ReadWords::read_word))]
pub fn as_word(reading: Result<Option<i32>, ReadError>) -> u64
    ensures { result ≡ read_word reading }
{
    match reading {
        Ok(Some(v)) => bits(v),
        Ok(None) => 4294967296,
        Err(e) => u64::from(e) * 4294967296,
    }
}

// The answer of writing a glyph map or a width table as a number. High half: 0 written, else the error's number; low half: the bytes.
#[tactic(auto, unfolding(crate::specs::GlyphWords::glyphs_word, crate::specs::WidthWords::widths_word))]
pub fn written_word(answer: Result<usize, WriteError>) -> u64
    ensures glyphs { result ≡ glyphs_word answer }
    ensures widths { result ≡ widths_word answer }
{
    match answer {
        Ok(bytes) => bytes as u64,
        Err(unwritten) => u64::from(unwritten) * 4294967296,
    }
}

// The answer of reading a glyph's word as a number. High half: 0 read, else the error's number; low half: the word.
#[tactic(auto, unfolding(crate::specs::GlyphWords::entry_word))]
pub fn glyph_word(answer: Result<u32, ReadError>) -> u64
    ensures { result ≡ entry_word answer }
{
    match answer {
        Ok(word) => u64::from(word),
        Err(unread) => u64::from(unread) * 4294967296,
    }
}
