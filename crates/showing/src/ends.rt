// The end records of a job, each of which ends the next set.
ghost use Rattle.std.specs.Prelude.{◌≡◌};
ghost use Rattle.showing.specs.Parts.{end_at, end_span};

use records::{Kind, is_kind, records_in};

// The bytes of a record.
const BYTES: usize = 12;

// A part of some bytes: where it starts, and how many there are. An empty one starts at 0.
// No Option for none: the C call tells 0 and 0 (specs/Parts `no_span`).
#[derive(Clone, Copy, Debug, PartialEq, Eq)]
pub struct Span {
    pub at: usize,
    pub long: usize,
}

// The number of the record that ends set j; as many as there are records where there is none, as `end_at` of specs/Parts says.
fn end_at(job: &[u8], j: usize) -> usize
    ensures { result ≡ end_at job.now j }
{
    let n = records_in(job.len());
    let mut before: usize = 0;
    for i in 0..n {
        if is_kind(job, i, Kind::End) {
            if before == j {
                return i;
            }
            before += 1;
        }
    }
    n
}

// Where that record lies.
#[tactic(auto, unfolding(crate::specs::Parts::end_span))]
pub fn end_part(job: &[u8], j: usize) -> Span
    ensures { result ≡ end_span job.now j }
{
    let n = records_in(job.len());
    let i = end_at(job, j);
    if i < n {
        return Span {
            at: BYTES * i,
            long: BYTES,
        };
    }
    Span { at: 0, long: 0 }
}
