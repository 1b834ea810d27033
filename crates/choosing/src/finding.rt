// The new place of each word of the list.
ghost use Rattle.std.specs.Prelude.{◌≡◌, ℕ, ◌+◌, ◌≤◌, ◌<◌, length, get_or};
ghost use Rattle.choosing.specs.Lent.{Rising, Within, FoundAt, PlacesPut};

// Where x stands among k rising words: it is one of them.
fn find(work: &[u32], k: usize, x: u32) -> usize
    requires { (k ≤ length work.now) × Rising k work.now × Within k work.now x }
    ensures { FoundAt k work.now x result }
{
    match work[..k].binary_search(&x) {
        Ok(i) => i,
        Err(i) => i,
    }
}

// Each word's new place, which stands `to` words behind it.
pub fn write_places(work: &[u32], k: usize, to: usize, rows: &[u32], places: &mut [u32])
    requires k_in_bounds { (k ≤ length work.now) × (to + k ≤ length work.now) × Rising k work.now }
    requires by_index { (i : ℕ) → i < length rows.now → Within k work.now (get_or rows.now i 0) }
    requires rows_in_bounds { length rows.now ≤ length places.old }
    ensures { PlacesPut k to work.now rows.now places.old places.new }
{
    for (i, &row) in rows.iter().enumerate() {
        let j = find(work, k, row);
        places[i] = work[to + j];
    }
}
