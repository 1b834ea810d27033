// The entry points of the glyph map: written whole, and read one glyph at a time.
// Numbers alone in and out, no Option, Result or enum: C calls these.
ghost use Rattle.std.specs.Prelude.{◌≡◌, length};
ghost use Rattle.glyphs.specs.Answers.{glyphs_of, glyphs_left};
ghost use Rattle.glyphs.specs.Reading.{read_map};
ghost use Rattle.numbers.specs.GlyphWords.{glyphs_word, entry_word};

// Writes the map of a word for each glyph. High half: 0 written, else the refusal number; low half: the bytes.
#[unsafe(no_mangle)]
pub extern "C" fn ivs_write_glyphs(words: &[u32], out: &mut [u8]) -> u64
    ensures value { result ≡ glyphs_word (glyphs_of words.now (length out.old)) }
    ensures out_after { out.new ≡ glyphs_left words.now out.old }
{
    ivs::ivs_write_glyphs(words, out)
}

// The word of a glyph. High half: 0 read, else the refusal number; low half: the word.
#[unsafe(no_mangle)]
pub extern "C" fn ivs_read_glyph(map: &[u8], glyph: u32) -> u64
    ensures { result ≡ entry_word (read_map map.now glyph) }
{
    ivs::ivs_read_glyph(map, glyph)
}
