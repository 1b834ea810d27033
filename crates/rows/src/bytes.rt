// Numbers as bytes, the highest byte first.
ghost use Rattle.std.specs.Prelude.{◌+◌, ◌≤◌, ◌%◌, ◌≡◌, length};
ghost use Rattle.laws.specs.Bytes.{bytes_of, over};
ghost use Rattle.rows.specs.Lent.{Put};

use laws::copy_slice;

// Writes the k low bytes of x from at on.
pub fn put(out: &mut [u8], at: usize, k: usize, x: u32)
    requires { at + k ≤ length out.old }
    ensures { out.new ≡ over out.old at k (bytes_of k x) }
{
    let mut y = x;
    for i in (0..k).rev() {
        out[at + i] = (y % 256) as u8;
        y = y / 256;
    }
}

// Writes bytes from at on, and answers where they end.
pub fn copy(out: &mut [u8], at: usize, bytes: &[u8]) -> usize
    requires { at + length bytes.now ≤ length out.old }
    ensures { Put at bytes.now out.old out.new result }
{
    let end = at + bytes.len();
    copy_slice(&mut out[at..end], bytes);
    end
}
