// What is asked of a build, once it is done: ids that there are, and the store that it wrote.
ghost use Rattle.std.specs.Prelude.{◌≡◌, ◌≤◌, length};
ghost use Rattle.refusals.specs.Refusals.{number_in};
ghost use Rattle.finding.specs.Asked.{asked_refusal};

use crate::bytes::same_bytes;
use refusals::{Refusal, ensure};

// Refusals 62 and 63, of a build of so many ids and bytes, by its output.
#[tactic(auto, unfolding(crate::specs::Asked::asked_refusal, said::specs::Refusals::first_failed))]
pub fn check_asked(
    ids: usize,
    bytes: usize,
    first: u32,
    second: u32,
    store: &[u8],
    out: &[u8],
) -> Result<(), Refusal>
    requires { bytes ≤ length out.now }
    ensures { number_in result ≡ asked_refusal ids bytes first second store.now out.now }
{
    ensure((first as usize) < ids, Refusal::NoId)?;
    ensure((second as usize) < ids, Refusal::NoId)?;
    ensure(same_bytes(store, &out[..bytes]), Refusal::OtherStore)
}
