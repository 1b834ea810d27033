// Where the sets stand that are to be rows.
ghost use Rattle.std.specs.Prelude.{ℕ, ◌+◌, ◌≤◌, ◌<◌, length, get_or};
ghost use Rattle.rows.specs.Lent.{Stored};

// Sets that are to be rows: `count` of them, whose numbers stand from `ids` on; set x is found by two words of the index, which starts
// at `index`.
#[derive(Clone, Copy)]
pub struct SetList {
    pub index: usize,
    pub ids: usize,
    pub count: usize,
}

// These sets with the words in which they stand.
#[derive(Clone, Copy)]
pub struct Sets<'a> {
    pub work: &'a [u32],
    pub list: SetList,
    ghost within: { list.ids + list.count ≤ length work.now },
    ghost stored: { (k : ℕ) → k < list.count → Stored list.index work.now (get_or work.now (list.ids + k) 0) },
}
