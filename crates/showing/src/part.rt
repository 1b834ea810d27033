// The part itself, of the one of two lent slices that was asked for.
ghost use Rattle.std.specs.Prelude.{◌≡◌};
ghost use Rattle.showing.specs.Answers.{shown_of};
ghost use Rattle.showing.specs.Parts.{bytes_shown};
ghost use Rattle.showing.specs.LentParts.{Within, start_shown};

use crate::found::Part;
use refusals::Refused;

// Not a copy: what is handed back lies in the job or in the store, from where it was found on. A refusal hands back an empty part.
#[tactic(auto, unfolding(crate::specs::Parts::bytes_shown), using(crate::proofs::PartLaws::one_long))]
pub fn shown<'a>(job: &'a [u8], store: &'a [u8], answer: Result<Part, Refused>) -> &'a [u8]
    requires { Within job.now store.now (shown_of answer) }
    ensures result_value { result.now ≡ bytes_shown job.now store.now (shown_of answer) }
    ensures ref_ptr_value { result.ref_ptr ≡ start_shown job.entry.ref_ptr store.entry.ref_ptr (shown_of answer) }
{
    match answer {
        Err(_) => &job[..0],
        Ok(Part::InJob(at, long)) => &job[at..at + long],
        Ok(Part::InStore(at, long)) => &store[at..at + long],
    }
}
