// Two shapes joined: what the join costs, and the join itself.
ghost use Rattle.std.specs.Prelude.{◌+◌, ◌*◌, ◌≤◌, ◌<◌, length};
ghost use Rattle.laws.specs.LentRange.{Apart};
ghost use Rattle.planes.specs.Lent.{FourOnes, PairOnes, LastOnes, CountedTo, MeasuresJoin, JoinsPlanes};

use shapes::RowShape;

// The ones of each plane of two shapes together, in the words before `upto`.
#[derive(Clone, Copy)]
struct Ones {
    one: u32,
    two: u32,
    four: u32,
    upto: usize,
}

// The ones of four words from i on of the planes at a and b together; the compiler counts them at once.
fn four_ones(work: &[u32], a: usize, b: usize, i: usize) -> u32
    requires i_in_bounds { a + i + 3 < length work.now }
    requires i_in_bounds_2 { b + i + 3 < length work.now }
    ensures { FourOnes work.now a b i result }
{
    let x = u32::count_ones(work[a + i] | work[b + i]);
    let y = u32::count_ones(work[a + i + 1] | work[b + i + 1]);
    let z = u32::count_ones(work[a + i + 2] | work[b + i + 2]);
    let w = u32::count_ones(work[a + i + 3] | work[b + i + 3]);
    x + y + z + w
}

// The ones of words i and i + 1 of the planes at a and b together, counted as one number of 64 bits: a processor with no instruction for it counts
// 64 bits in the steps of 32.
fn pair_ones(work: &[u32], a: usize, b: usize, i: usize) -> u32
    requires i_in_bounds { a + i + 1 < length work.now }
    requires i_in_bounds_2 { b + i + 1 < length work.now }
    ensures { PairOnes work.now a b i result }
{
    let low = work[a + i] | work[b + i];
    let high = work[a + i + 1] | work[b + i + 1];
    u64::count_ones((high as u64) * 4294967296 + low as u64)
}

// The ones of the word that the pairs leave where words is odd, and 0 where it is even.
fn last_ones(work: &[u32], a: usize, b: usize, i: usize, words: usize) -> u32
    requires i_le_words { i ≤ words }
    requires words_bound { words ≤ i + 1 }
    requires words_in_bounds { a + words ≤ length work.now }
    requires words_in_bounds_2 { b + words ≤ length work.now }
    ensures { LastOnes work.now a b i words result }
{
    if i < words {
        u32::count_ones(work[a + i] | work[b + i])
    } else {
        0
    }
}

// The ones of the shapes at a and b together, four words at once: at most three words are left.
fn count_fours(work: &[u32], a: usize, b: usize, words: usize) -> Ones
    requires words_bound { words ≤ 1048576 }
    requires words_in_bounds { a + 3 * words ≤ length work.now }
    requires words_in_bounds_2 { b + 3 * words ≤ length work.now }
    ensures counted_to { CountedTo work.now a b words result.one result.two result.four result.upto }
    ensures words_bound_2 { words ≤ result.upto + 3 }
{
    let c = a + words;
    let d = b + words;
    let e = c + words;
    let f = d + words;
    let mut one: u32 = 0;
    let mut two: u32 = 0;
    let mut four: u32 = 0;
    let mut i = 0;
    // No `for`: it goes four words at a time, and tells how far it came.
    while i + 3 < words {
        one += four_ones(work, a, b, i);
        two += four_ones(work, c, d, i);
        four += four_ones(work, e, f, i);
        i += 4;
    }
    Ones {
        one,
        two,
        four,
        upto: i,
    }
}

// Counts on from s, two words at once: at most one word is left.
fn count_pairs(work: &[u32], a: usize, b: usize, words: usize, s: Ones) -> Ones
    requires words_bound { words ≤ 1048576 }
    requires words_in_bounds { a + 3 * words ≤ length work.now }
    requires words_in_bounds_2 { b + 3 * words ≤ length work.now }
    requires counted_to { CountedTo work.now a b words s.one s.two s.four s.upto }
    ensures counted_to_2 { CountedTo work.now a b words result.one result.two result.four result.upto }
    ensures words_bound_2 { words ≤ result.upto + 1 }
{
    let c = a + words;
    let d = b + words;
    let e = c + words;
    let f = d + words;
    let mut one = s.one;
    let mut two = s.two;
    let mut four = s.four;
    let mut i = s.upto;
    // No `for`: it goes two words at a time, and tells how far it came.
    while i + 1 < words {
        one += pair_ones(work, a, b, i);
        two += pair_ones(work, c, d, i);
        four += pair_ones(work, e, f, i);
        i += 2;
    }
    Ones {
        one,
        two,
        four,
        upto: i,
    }
}

// What the shapes at a and b cost joined, in one pass over the three planes: four words at once, then two, then the last one.
fn measure_short(work: &[u32], a: usize, b: usize, words: usize) -> RowShape
    requires words_bound { words ≤ 1048576 }
    requires words_in_bounds { a + 3 * words ≤ length work.now }
    requires words_in_bounds_2 { b + 3 * words ≤ length work.now }
    ensures { MeasuresJoin work.now a b words result.row_cost result.columns }
{
    let fours = count_fours(work, a, b, words);
    let pairs = count_pairs(work, a, b, words, fours);
    let c = a + words;
    let d = b + words;
    let e = c + words;
    let f = d + words;
    let i = pairs.upto;
    let one = pairs.one + last_ones(work, a, b, i, words);
    let two = pairs.two + last_ones(work, c, d, i, words);
    let four = pairs.four + last_ones(work, e, f, i, words);
    RowShape {
        row_cost: one + two + 2 * four,
        columns: one,
    }
}

// What the shapes at a and b cost joined, in one pass over the three planes, word by word: of this loop the compiler makes one that counts eight
// words at once, and of that over pairs it does not.
pub fn measure_words(work: &[u32], a: usize, b: usize, words: usize) -> RowShape
    requires words_bound { words ≤ 1048576 }
    requires words_in_bounds { a + 3 * words ≤ length work.now }
    requires words_in_bounds_2 { b + 3 * words ≤ length work.now }
    ensures { MeasuresJoin work.now a b words result.row_cost result.columns }
{
    let c = a + words;
    let d = b + words;
    let e = c + words;
    let f = d + words;
    let mut one: u32 = 0;
    let mut two: u32 = 0;
    let mut four: u32 = 0;
    for i in 0..words {
        one += u32::count_ones(work[a + i] | work[b + i]);
        two += u32::count_ones(work[c + i] | work[d + i]);
        four += u32::count_ones(work[e + i] | work[f + i]);
    }
    RowShape {
        row_cost: one + two + 2 * four,
        columns: one,
    }
}

// What the shapes at a and b cost joined: by fours and pairs where there are fewer than the eight words that `measure_words` counts at once. It has one
// caller, so that the compiler puts it in line there; what is measured seldom goes by `measure_words`.
pub fn measure_join(work: &[u32], a: usize, b: usize, words: usize) -> RowShape
    requires words_bound { words ≤ 1048576 }
    requires words_in_bounds { a + 3 * words ≤ length work.now }
    requires words_in_bounds_2 { b + 3 * words ≤ length work.now }
    ensures { MeasuresJoin work.now a b words result.row_cost result.columns }
{
    if words < 8 {
        return measure_short(work, a, b, words);
    }
    measure_words(work, a, b, words)
}

// Makes the shape at a the join of those at a and b.
pub fn join_into(work: &mut [u32], a: usize, b: usize, words: usize)
    requires words_in_bounds { a + 3 * words ≤ length work.old }
    requires words_in_bounds_2 { b + 3 * words ≤ length work.old }
    requires apart { Apart a (3 * words) b (3 * words) }
    ensures { JoinsPlanes a b words work.old work.new }
{
    let n = 3 * words;
    for i in 0..n {
        work[a + i] |= work[b + i];
    }
}
