// The regions that are still named, by their new numbers.
ghost use Rattle.cutting.specs.LentCut.{StoreFit};
ghost use Rattle.keeping.specs.LentKeep.{RegionsNamed};

use cutting::{mark_tables, number};
use laws::zero_part;
use reader::be;

// Of t subtables whose rows are chosen in work; answers how many regions they name.
pub fn name_regions(store: &[u8], work: &mut [u32], n: usize, t: usize) -> usize
    requires { StoreFit store.now n work.old t }
    ensures { RegionsNamed store.now n t work.old work.new result }
{
    let list = be(store, 2, 4);
    let regions = be(store, list + 2, 2);
    zero_part(work, 3 * n + 1, regions);
    mark_tables(store, work, n, t);
    number(work, 3 * n + 1, regions)
}
