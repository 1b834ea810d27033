// Why two ids are where they are, by what a build answered and left, and by the look at its groups.
ghost use Rattle.std.specs.Prelude.{◌≡◌};
ghost use Rattle.finishing.specs.Answers.{built};
ghost use Rattle.why_words.specs.Answers.{why_of};
ghost use Rattle.why_words.specs.Explained.{because, explained, OutFits};

use finding::check_asked;
use finishing::Report;
use reasons::Reason;
use refusals::{Refusal, Refused};

// One subtable; one group, cut; or two groups that were never joined, with what each costs and what they would cost as one.
#[derive(Clone, Copy, Debug, PartialEq, Eq)]
pub enum Explained {
    Same,
    CutApart,
    NeverJoined(u64, u64, u64),
}

// A look that found no row for one of the ids says that there is no such id.
#[tactic(auto, unfolding(crate::specs::Explained::because))]
fn because(r: Reason) -> Result<Explained, Refused>
    ensures { why_of result ≡ because r }
{
    match r {
        Reason::None => Err(Refused {
            refusal: Refusal::NoId,
            place: 0,
        }),
        Reason::Same => Ok(Explained::Same),
        Reason::CutApart => Ok(Explained::CutApart),
        Reason::NeverJoined(a, b, j) => Ok(Explained::NeverJoined(a, b, j)),
    }
}

// The build's refusal first, then that of what is asked, then the reason.
#[tactic(auto, unfolding(crate::specs::Explained::explained))]
pub fn explain(
    answer: Result<Report, Refused>,
    r: Reason,
    store: &[u8],
    out: &[u8],
    first: u32,
    second: u32,
) -> Result<Explained, Refused>
    requires { OutFits (built answer) out.now }
    ensures { why_of result ≡ explained (built answer) r store.now out.now first second }
{
    let done = answer?;
    check_asked(done.ids, done.bytes, first, second, store, out)?;
    because(r)
}
