// Lines of hexadecimal bytes, read byte by byte into a case: blanks are skipped, and so is the rest of a line from a '#' on.
ghost use Rattle.std.specs.Prelude.{◌≡◌, ◌+◌, ◌<◌, ◌≤◌, ◌/◌, length, IfSome};

// The most bytes of a case: what a line has behind them is skipped.
const MOST_BYTES: usize = 4096;

// A digit's number; none of what is no digit.
fn digit(byte: u8) -> Option<u8>
    ensures { IfSome result (λ x. x < 16) }
{
    match byte {
        b'0'..=b'9' => Some(byte - b'0'),
        b'a'..=b'f' => Some(byte - b'a' + 10),
        _ => None,
    }
}

// The case that a line says: the bytes of its digits so far, two of each, and whether a '#' was seen.
#[derive(Drop)]
pub struct Case {
    bytes: [u8; MOST_BYTES],
    digits: usize,
    told: bool,
    ghost few: { digits ≤ 8192 },
}

impl Case {
    // Before a line.
    pub fn new() -> Case
        ensures { result.digits ≡ 0 }
    {
        Case {
            bytes: [0; MOST_BYTES],
            digits: 0,
            told: false,
        }
    }

    // Before the next line.
    pub fn clear(&mut self)
        ensures { self.new.digits ≡ 0 }
    {
        self.digits = 0;
        self.told = false;
    }

    // One byte more, which ends no line.
    pub fn push(&mut self, byte: u8)
        ensures { self.new.digits ≤ self.old.digits + 1 }
    {
        self.told |= byte == b'#';
        if self.told || self.digits == 2 * MOST_BYTES {
            return;
        }
        if let Some(half) = digit(byte) {
            let at = self.digits / 2;
            self.bytes[at] = self.bytes[at] << 4 | half;
            self.digits += 1;
        }
    }

    // Its bytes. A last digit alone says none.
    pub fn bytes(&self) -> &[u8]
        ensures { length result.now ≡ self.now.digits / 2 }
    {
        &self.bytes[..self.digits / 2]
    }
}
