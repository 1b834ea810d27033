// How many records a job has, and where in it the coordinates of its regions stand.
ghost use Rattle.std.specs.Prelude.{◌≡◌, ℕ, ◌+◌, ◌*◌, ◌<◌, ◌≤◌, length};
ghost use Rattle.limits.specs.Limits.{most_axes, max_regions};
ghost use Rattle.laws.specs.Bytes.{be};
ghost use Rattle.said.specs.Records.{is_whole_records, whole_records_in, region_length, coord_place, coordinates_start, axis_coordinates};

use crate::nth::BYTES;
use crate::two_bytes;

// Where in an axis record the coordinates start, and how many bytes they are.
const COORDS: usize = 4;

pub const COORDS_LONG: usize = 6;

// So many bytes are records and nothing else.
pub fn are_records(bytes: usize) -> bool
    ensures { result ≡ is_whole_records bytes }
{
    bytes % BYTES == 0
}

// How many records so many bytes are.
pub fn records_in(bytes: usize) -> usize
    ensures { result ≡ whole_records_in bytes }
{
    bytes / BYTES
}

// The bytes of a region's axis records.
pub fn region_long(axes: usize) -> usize
    requires { axes ≤ most_axes }
    ensures { result ≡ region_length axes }
{
    BYTES * axes
}

// The k-th coordinate of the region whose axis records begin at byte p.
pub fn coordinate(job: &[u8], p: usize, k: usize) -> u32
    requires { p + (coord_place k + 2) ≤ length job.now }
    ensures value { result ≡ be 2 job.now (p + coord_place k) }
    ensures upper_bound { result < 65536 }
{
    two_bytes(job, p + (BYTES * (k / 3) + (COORDS + 2 * (k % 3))))
}

// Where the coordinates of region x start.
pub fn coords_start(axes: usize, x: usize) -> usize
    requires { (axes ≤ most_axes) × (x < max_regions) }
    ensures value { result ≡ coordinates_start axes x }
    ensures upper_bound { result < 4294967296 }
{
    BYTES * axes * x + COORDS
}

// Where the coordinates of axis a are, of a region whose coordinates start there.
pub fn axis_coords(from: usize, a: usize) -> usize
    requires { axis_coordinates from a < 18446744073709551616 }
    ensures { result ≡ axis_coordinates from a }
{
    from + BYTES * a
}
