// Writes the whole store: header, offsets, region list, subtables.
ghost use Rattle.std.specs.Prelude.{◌≡◌, true, ℕ, ◌+◌, ◌*◌, ◌≤◌, ◌<◌, length};
ghost use Rattle.laws.specs.Bag.{sum};
ghost use Rattle.reader.specs.Store.{region_count, is_header_ok};
ghost use Rattle.rows.specs.Lent.{Put};
ghost use Rattle.cutting.specs.LentCut.{StoreFit, StoreNamed, header_put, spots_put, regions_put, list_put, tables_put, store_put, cut_size};

use crate::cut::{cut_of, size_of};
use crate::table::{copy, write_table};
use reader::be;
use rows::put;

fn write_header(out: &mut [u8], t: usize) -> usize
    requires { (8 ≤ length out.old) × (t < 65536) }
    ensures { Put 0 (header_put t) out.old out.new result }
{
    put(out, 0, 2, 1);
    put(out, 2, 4, (8 + 4 * t) as u32);
    put(out, 6, 2, t as u32);
    8
}

// Where each of t subtables begins, the first one at first.
fn write_spots(
    out: &mut [u8],
    at: usize,
    store: &[u8],
    work: &[u32],
    n: usize,
    t: usize,
    first: usize,
) -> usize
    requires store_fit { StoreFit store.now n work.now t }
    requires t_in_bounds { (at + 4 * t ≤ length out.old) × (first + sum (cut_size store.now n work.now) t < 4294967296) }
    ensures { Put at (spots_put store.now n work.now first t) out.old out.new result }
{
    let mut p = at;
    let mut next = first;
    for g in 0..t {
        let c = cut_of(store, work, n, g);
        put(out, p, 4, next as u32);
        p += 4;
        next += size_of(c.word, c.columns, c.rows);
    }
    p
}

// The coordinates of each of so many regions that has a number, `long` bytes each; the first region's stand at from.
fn write_regions(
    out: &mut [u8],
    at: usize,
    store: &[u8],
    from: usize,
    long: usize,
    work: &[u32],
    marks: usize,
    regions: usize,
) -> usize
    requires regions_bound { (regions < 65536) × (from + regions * long ≤ length store.now) × (marks + regions ≤ length work.now) }
    requires regions_in_bounds { at + length (regions_put store.now from long work.now marks regions) ≤ length out.old }
    ensures { Put at (regions_put store.now from long work.now marks regions) out.old out.new result }
{
    let mut p = at;
    for r in 0..regions {
        if work[marks + r] != 0 {
            p = copy(out, p, store, from + r * long, long);
        }
    }
    p
}

// The region list.
fn write_list(
    out: &mut [u8],
    at: usize,
    store: &[u8],
    work: &[u32],
    marks: usize,
    kept: usize,
) -> usize
    requires store_value { (is_header_ok store.now ≡ true) × (kept < 65536) × (marks + region_count store.now ≤ length work.now) }
    requires kept_in_bounds { at + length (list_put store.now work.now marks kept) ≤ length out.old }
    ensures { Put at (list_put store.now work.now marks kept) out.old out.new result }
{
    let list = be(store, 2, 4);
    let axes = be(store, list, 2);
    let regions = be(store, list + 2, 2);
    put(out, at, 2, axes as u32);
    put(out, at + 2, 2, kept as u32);
    write_regions(out, at + 4, store, list + 4, 6 * axes, work, marks, regions)
}

// The t subtables.
fn write_tables(out: &mut [u8], at: usize, store: &[u8], work: &[u32], n: usize, t: usize) -> usize
    requires store_fit { StoreFit store.now n work.now t × StoreNamed store.now n work.now t }
    requires t_in_bounds { at + length (tables_put store.now n work.now t) ≤ length out.old }
    ensures { Put at (tables_put store.now n work.now t) out.old out.new result }
{
    let mut p = at;
    for g in 0..t {
        p = write_table(out, p, store, work, n, g);
    }
    p
}

// The store of t subtables and so many regions, whose subtables begin at first.
pub fn write_store(
    out: &mut [u8],
    store: &[u8],
    work: &[u32],
    n: usize,
    t: usize,
    kept: usize,
    first: usize,
) -> usize
    requires store_fit { StoreFit store.now n work.now t × StoreNamed store.now n work.now t }
    requires kept_bound { (kept < 65536) × (first ≡ 8 + 4 * t + length (list_put store.now work.now (3 * n + 1) kept)) × (length (store_put store.now n work.now t kept) < 4294967296) × (length (store_put store.now n work.now t kept) ≤ length out.old) }
    ensures { Put 0 (store_put store.now n work.now t kept) out.old out.new result }
{
    let p = write_header(out, t);
    let q = write_spots(out, p, store, work, n, t, first);
    let r = write_list(out, q, store, work, 3 * n + 1, kept);
    write_tables(out, r, store, work, n, t)
}
