// An image's axes, as the header's dim states them: which entry is below 1, the image's bytes, and the lengths of the seven axes.
// Where dim is a slice, dim[i] is 0 past its end, and n is the number of axes, dim[0].
#![tactic(auto)]

ghost use Rattle.std.specs.Prelude.{◌≡◌, ◌<◌, ◌≤◌, get_or};
ghost use Rattle.number.specs.Natural.{natural_of};
ghost use Rattle.grid.specs.Axes.{dim_at, first_below, image_bytes, capped, seven_axes};

// The most bytes that an image may have (rule 10).
pub const LIMIT: u64 = 1_099_511_627_776;

// An image's sizes: its bytes in all and, for each axis, the step, that is how many bytes on from a voxel the next one along
// the axis is (specs/Sizes.antt).
#[derive(Clone, Copy, PartialEq, Eq)]
pub struct Sizes {
    pub total: u64,
    pub steps: [u64; 7],
}

// The length that dim[i] states: 0 where it is negative.
pub fn axis_length(dim: &[i16], i: usize) -> u64
    ensures { (result ≡ natural_of (dim_at dim.now i)) × (result ≤ 32767) }
{
    if dim.len() <= i {
        return 0;
    }
    number::natural(dim[i])
}

// The least i from 1 to n for which dim[i] is below 1, or 0 where there is none.
pub fn first_below_one(dim: &[i16], n: usize) -> usize
    ensures { result ≡ first_below dim.now n }
{
    for i in 0..n {
        if axis_length(dim, i + 1) < 1 {
            return i + 1;
        }
    }
    0
}

// A number, or one above the limit where it is above that.
pub fn limited(m: u64) -> u64
    ensures { result ≡ capped m }
{
    if m <= LIMIT { m } else { LIMIT + 1 }
}

// The image's bytes, with the bytes of one voxel, or one above their limit where they are above it.
// The limit is tested before each product, so none wraps.
pub fn image_bytes(dim: &[i16], n: usize, bytes: u64) -> u64
    ensures { result ≡ capped (image_bytes dim.now n bytes) }
{
    let mut product = bytes;
    for axis in 0..n {
        let kept = limited(product);
        product = kept * axis_length(dim, axis + 1);
    }
    limited(product)
}

// The lengths of the seven axes: 1 past dim[0].
pub fn seven(dim: &[i16], n: usize) -> [u64; 7]
    requires { n ≤ 7 }
    ensures { result ≡ seven_axes dim.now n }
{
    let mut lengths = [1u64; 7];
    for k in 0..n {
        lengths[k] = axis_length(dim, k + 1);
    }
    lengths
}

// The length of the axis that k axes are before: 1 past dim[0].
pub fn length_after(dim: &[i16], n: usize, k: usize) -> u64
    requires { k < 7 }
    ensures { (result ≡ get_or (seven_axes dim.now n) k 0) × (result ≤ 32767) }
{
    if k < n { axis_length(dim, k + 1) } else { 1 }
}
