// Whether the entries of a list are rows of a store that is well formed throughout.
ghost use Rattle.std.specs.Prelude.{◌≡◌, true, ◌/◌, ◌%◌};
ghost use Rattle.stores.specs.Stores.{is_whole_ok, store_at};
ghost use Rattle.stores.specs.Coordinates.{is_row_there};
ghost use Rattle.keeping.specs.Keeping.{all_there};

use laws::wide;
use reader::be;

fn row_there(store: &[u8], x: u32) -> bool
    requires { is_whole_ok store.now ≡ true }
    ensures { result ≡ is_row_there (store_at store.now) (x / 65536) (x % 65536) }
{
    let w = wide(x);
    let o = w / 65536;
    if be(store, 6, 2) <= o {
        return false;
    }
    let at = be(store, 8 + 4 * o, 4);
    if at == 0 {
        return false;
    }
    w % 65536 < be(store, at, 2)
}

pub fn rows_there(store: &[u8], rows: &[u32]) -> bool
    requires { is_whole_ok store.now ≡ true }
    ensures { result ≡ all_there (store_at store.now) rows.now }
{
    rows.iter().all(|row| row_there(store, *row))
}
