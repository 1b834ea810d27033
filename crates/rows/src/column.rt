// Columns of a row: the regions that have one in their order, and which one a region has.
ghost use Rattle.std.specs.Prelude.{◌≡◌, List, ℕ, ◌+◌, ◌≤◌, ◌<◌, true, length, replicate, eqb, count_by};
ghost use Rattle.laws.specs.LentRange.{seg};
ghost use Rattle.reader.specs.Store.{are_columns_ok, find};
ghost use Rattle.rows.specs.Columns.{columns_of, of_width, word_count};
ghost use Rattle.rows.specs.Lent.{FormedIn, Placed, PlacedIn, Put};

use laws::zero_part;
use reader::Column;

// The column of a region, by the table that has 0 for a region without one, else one more than its number.
pub fn column_of(places: &[u32], region: usize) -> Column
    ensures { (cols : List ℕ) → Placed cols places.now → result ≡ find region 0 cols }
{
    if places.len() <= region {
        return Column::Missing;
    }
    let place = places[region] as usize;
    if place == 0 {
        return Column::Missing;
    }
    Column::At(place - 1)
}

// Puts the regions of one width, in a shape that stands in work, behind those that are there.
fn collect(work: &mut [u32], shape: usize, regions: usize, width: u32, from: usize) -> usize
    requires regions_bound { regions < 32768 }
    requires regions_bound_2 { shape + regions ≤ from }
    requires work_in_bounds { from + length (of_width width 0 (seg shape regions work.old)) ≤ length work.old }
    ensures { Put from (of_width width 0 (seg shape regions work.old)) work.old work.new result }
{
    let mut n = from;
    for i in 0..regions {
        if work[shape + i] == width {
            work[n] = i as u32;
            n += 1;
        }
    }
    n
}

// A row's form: its word count and how many columns it has.
#[derive(Clone, Copy)]
pub struct Form {
    pub word: usize,
    pub count: usize,
}

// The regions of a shape's columns, wider first: three passes by width. The shape stands in work, and the columns come behind it.
#[tactic(auto, unfolding(crate::specs::Columns::word_count, crate::specs::Columns::columns_of))]
pub fn columns(work: &mut [u32], shape: usize, regions: usize, cols: usize) -> Form
    requires regions_bound { regions < 32768 }
    requires regions_bound_2 { shape + regions ≤ cols }
    requires regions_in_bounds { cols + regions ≤ length work.old }
    ensures { FormedIn shape regions cols work.old work.new result.word result.count }
{
    let fours = collect(work, shape, regions, 4, cols);
    let twos = collect(work, shape, regions, 2, fours);
    let end = collect(work, shape, regions, 1, twos);
    if cols < fours {
        return Form {
            word: fours - cols + 0x8000,
            count: end - cols,
        };
    }
    Form {
        word: twos - cols,
        count: end - cols,
    }
}

// How many regions have one width.
fn count_width(shape: &[u32], width: u32) -> usize
    requires { length shape.now < 32768 }
    ensures value { result ≡ count_by (λ w. eqb w width) shape.now }
    ensures upper_bound { result ≤ length shape.now }
{
    shape.iter().filter(|w| **w == width).count()
}

// The form of a shape's rows alone: its columns are counted and not written.
#[tactic(auto, unfolding(crate::specs::Columns::word_count, crate::specs::Columns::columns_of))]
pub fn form_alone(shape: &[u32]) -> Form
    requires { length shape.now < 32768 }
    ensures { (result.word ≡ word_count shape.now) × (result.count ≡ length (columns_of shape.now)) }
{
    let fours = count_width(shape, 4);
    let twos = count_width(shape, 2);
    let count = fours + twos + count_width(shape, 1);
    if 0 < fours {
        return Form {
            word: fours + 0x8000,
            count,
        };
    }
    Form { word: twos, count }
}

// Writes n columns, which stand in work, into the table of so many regions behind them.
fn mark(work: &mut [u32], cols: usize, n: usize, places: usize, regions: usize)
    requires n_bound { n < 65536 }
    requires n_bound_2 { cols + n ≤ places }
    requires regions_in_bounds { places + regions ≤ length work.old }
    requires work_value { are_columns_ok regions (seg cols n work.old) ≡ true }
    requires work_value_2 { seg places regions work.old ≡ replicate regions 0 }
    ensures { PlacedIn cols n places regions work.old work.new }
{
    for j in 0..n {
        let region = work[cols + j] as usize;
        work[places + region] = (j + 1) as u32;
    }
}

// The table by which n columns are looked up. They stand in work, and it comes behind them.
pub fn place(work: &mut [u32], cols: usize, n: usize, places: usize, regions: usize)
    requires n_bound { n < 65536 }
    requires n_bound_2 { cols + n ≤ places }
    requires regions_in_bounds { places + regions ≤ length work.old }
    requires work_value { are_columns_ok regions (seg cols n work.old) ≡ true }
    ensures { PlacedIn cols n places regions work.old work.new }
{
    zero_part(work, places, regions);
    mark(work, cols, n, places, regions);
}
