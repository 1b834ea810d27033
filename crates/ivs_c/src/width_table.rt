// The entry points of the width table (HVAR): written whole, and read one glyph and region at a time.
// Numbers alone in and out, no Option, Result or enum: C calls these.
ghost use Rattle.std.specs.Prelude.{◌≡◌, length};
ghost use Rattle.widths.specs.Answers.{widths_of, widths_left};
ghost use Rattle.widths.specs.Reading.{width_reading};
ghost use Rattle.numbers.specs.ReadWords.{read_word};
ghost use Rattle.numbers.specs.WidthWords.{widths_word};

// Writes the table of a store and a word for each glyph, of no words without a map. High half: 0 written, else the refusal number; low half:
// the bytes.
#[unsafe(no_mangle)]
pub extern "C" fn ivs_write_widths(store: &[u8], words: &[u32], out: &mut [u8]) -> u64
    ensures value { result ≡ widths_word (widths_of store.now words.now (length out.old)) }
    ensures out_after { out.new ≡ widths_left store.now words.now out.old }
{
    ivs::ivs_write_widths(store, words, out)
}

// The value of a region in a glyph's row of a table, as a number.
#[unsafe(no_mangle)]
pub extern "C" fn ivs_read_width(table: &[u8], glyph: u32, region: u32) -> u64
    ensures { result ≡ read_word (width_reading table.now glyph region) }
{
    ivs::ivs_read_width(table, glyph, region)
}
