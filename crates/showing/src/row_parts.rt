// Where the row of a map word lies in a store, whatever the bytes are: the tests are those of the reader.
ghost use Rattle.std.specs.Prelude.{◌≡◌, true, ◌<◌};
ghost use Rattle.reader.specs.Store.{is_header_ok};
ghost use Rattle.showing.specs.Parts.{span, row_in, row_span};

use crate::ends::Span;
use reader::{be, column_at, header_ok, subtable_ok};

// A part that starts there; an empty one starts at 0.
#[tactic(auto, unfolding(crate::specs::Parts::span))]
fn span(at: usize, long: usize) -> Span
    ensures { result ≡ span at long }
{
    if long == 0 {
        return Span { at: 0, long: 0 };
    }
    Span { at, long }
}

// Row inner of the subtable at.
#[tactic(auto, unfolding(crate::specs::Parts::row_in))]
fn row_in(s: &[u8], at: usize, inner: usize) -> Span
    requires { (is_header_ok s.now ≡ true) × (at < 4294967296) }
    ensures { result ≡ row_in s.now at inner }
{
    if at == 0 {
        return Span { at: 0, long: 0 };
    }
    let list = be(s, 2, 4);
    let regions = be(s, list + 2, 2);
    if !subtable_ok(s, at, regions) {
        return Span { at: 0, long: 0 };
    }
    if be(s, at, 2) <= inner {
        return Span { at: 0, long: 0 };
    }
    let n = be(s, at + 4, 2);
    let word = be(s, at + 2, 2);
    let row = column_at(word, n);
    span(at + 6 + 2 * n + inner * row, row)
}

// The row of a map word: its upper half is the outer number, its lower half the inner one.
#[tactic(auto, unfolding(crate::specs::Parts::row_span))]
pub fn row_part(s: &[u8], word: u32) -> Span
    ensures { result ≡ row_span s.now word }
{
    if !header_ok(s) {
        return Span { at: 0, long: 0 };
    }
    let outer = (word / 65536) as usize;
    if be(s, 6, 2) <= outer {
        return Span { at: 0, long: 0 };
    }
    let at = be(s, 8 + 4 * outer, 4);
    row_in(s, at, (word % 65536) as usize)
}
