// How many bytes that are zero follow from each byte of a store on.
ghost use Rattle.std.specs.Prelude.{◌+◌, ◌≤◌, length};
ghost use Rattle.cells.specs.Lent.{OneMore, LooksAhead};

// The zeros from a byte on, where so many follow behind it.
fn one_more(byte: u8, zeros: u32) -> u32
    ensures { OneMore byte zeros result }
{
    if byte != 0 {
        return 0;
    }
    zeros.saturating_add(1)
}

// Word at + p, for each byte p: how many zero bytes there are from p on, up to the next that is not zero or to the last byte; no more than a word can say.
pub fn look_ahead(s: &[u8], work: &mut [u32], at: usize)
    requires { at + length s.now ≤ length work.old }
    ensures { LooksAhead s.now at work.old work.new }
{
    let mut zeros = 0;
    for p in (0..s.len()).rev() {
        zeros = one_more(s[p], zeros);
        work[at + p] = zeros;
    }
}
