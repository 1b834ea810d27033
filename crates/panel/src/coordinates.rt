// The coordinates of one axis, as words of work are (the coordinate plus 2^31), so that they are ordered as the coordinates are.
ghost use Rattle.std.specs.Prelude.{◌≡◌, ◌<◌};
ghost use Rattle.laws.specs.Signed.{word, value, signed};
ghost use Rattle.panel.specs.Taken.{is_sound_axis};

// The words of -1.0, of 0 and of 1.0.
const LOWEST: u32 = 0x7FFF_C000;

const ZERO: u32 = 0x8000_0000;

const HIGHEST: u32 = 0x8000_4000;

// The word of the coordinate whose 16 bits are x.
pub fn coordinate_word(x: u32) -> u32
    requires { x < 65536 }
    ensures { result ≡ word (signed 2 x) }
{
    if x < 32768 {
        return ZERO + x;
    }
    x + 0x7FFF_0000
}

// Start, peak and end are in order and within -1.0 to 1.0, and an axis that 0 lies inside has its peak there.
pub fn sound_axis(start: u32, peak: u32, end: u32) -> bool
    ensures { result ≡ is_sound_axis (value start) (value peak) (value end) }
{
    if peak < start {
        return false;
    }
    if end < peak {
        return false;
    }
    if start < LOWEST {
        return false;
    }
    if HIGHEST < end {
        return false;
    }
    if ZERO <= start {
        return true;
    }
    if end <= ZERO {
        return true;
    }
    peak == ZERO
}
