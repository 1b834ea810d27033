// The runs that a group is cut into.
ghost use Rattle.std.specs.Prelude.{◌≡◌, ◌-◌, ◌*◌, ◌<◌, min};
ghost use Rattle.shapes.specs.Group.{max_items};
ghost use Rattle.rows.specs.Subtable.{run_count_for};

use shapes::Encoding;

// How many runs a group of count sets is cut into; one of none is one null subtable.
#[tactic(auto, unfolding(crate::specs::Subtable::run_count_for))]
pub fn run_count(count: usize) -> usize
    requires { count < 4294967296 }
    ensures { result ≡ run_count_for count }
{
    count.div_ceil(Encoding::MAX_ITEMS).max(1)
}

// How many sets run k has.
pub fn run_items(count: usize, k: usize) -> usize
    requires k_bound { k < run_count_for count }
    requires count_bound { count < 4294967296 }
    ensures { result ≡ min max_items (count - max_items * k) }
{
    let left = count - Encoding::MAX_ITEMS * k;
    Encoding::MAX_ITEMS.min(left)
}
