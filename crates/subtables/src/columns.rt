// What the rows of a subtable have in common.
ghost use Rattle.std.specs.Prelude.{◌≡◌, ◌<◌, length};
ghost use Rattle.reader.specs.Store.{column_start};
ghost use Rattle.rows.specs.Lent.{Placed};

use reader::column_at;

// A row's columns: their word count, their regions in order, and the table by which the column of a region is looked up.
#[derive(Clone, Copy)]
pub struct Columns<'a> {
    pub word: usize,
    pub regions: &'a [u32],
    pub places: &'a [u32],
    ghost word_bound: { word < 65536 },
    ghost few: { length regions.now < 65536 },
    ghost placed: { Placed regions.now places.now },
}

impl Columns<'_> {
    // How long a row is.
    pub fn row(self) -> usize
        ensures value { result ≡ column_start self.entry.word (length self.entry.regions.now) }
        ensures upper_bound { result < 262144 }
    {
        column_at(self.word, self.regions.len())
    }
}
