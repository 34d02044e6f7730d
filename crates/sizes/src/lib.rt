// The sizes of an image (02-change-requests.md, P4): what dims and a voxel's bits give, whether two are the same, and how many bytes
// they put before a voxel.
#![tactic(auto)]

ghost use Rattle.std.specs.Prelude.{◌≡◌, false, cond, ◌*◌, ◌/◌, ◌≤◌, ltb, length};
ghost use Rattle.number.specs.Natural.{natural_of};
ghost use Rattle.grid.specs.Axes.{dim_at, image_limit, seven_axes};
ghost use Rattle.grid.specs.Sizes.{sizes_by, Measurable, same_sizes, Reaches};

use grid::Sizes;

// What `bytes_before` answers of an index outside its axes: more than any sum.
pub const OUTSIDE: u64 = 18_446_744_073_709_551_615;

// The step of the axis after this one: after dim[0], which is n, it stays the total.
fn next_step(dim: &[i16], n: usize, axis: usize, step: u64) -> u64
    requires { ltb n axis ≡ false → step * natural_of (dim_at dim.now axis) ≤ image_limit }
    ensures { result ≡ cond (ltb n axis) step (step * natural_of (dim_at dim.now axis)) }
{
    if n < axis {
        return step;
    }
    step * grid::axis_length(dim, axis)
}

// The sizes that dims give, n being dim[0], with the bytes of a voxel.
fn sizes_of(dim: &[i16], n: usize, bytes: u64) -> Sizes
    requires { Measurable dim.now n bytes }
    ensures { result ≡ sizes_by dim.now n bytes }
{
    let mut steps = [0u64; 7];
    let mut step = bytes;
    for k in 0..7 {
        let after = next_step(dim, n, k + 1, step);
        steps[k] = step;
        step = after;
    }
    Sizes { total: step, steps }
}

// The same with the bits of a voxel, as bitpix states them.
pub fn sizes_in(dim: [i16; 8], bitpix: i16) -> Sizes
    requires { Measurable dim (natural_of (dim_at dim 0)) (natural_of bitpix / 8) }
    ensures { result ≡ sizes_by dim (natural_of (dim_at dim 0)) (natural_of bitpix / 8) }
{
    let n = grid::axis_length(&dim, 0) as usize;
    sizes_of(&dim, n, number::natural(bitpix) / 8)
}

// Whether all eight numbers are the same.
pub fn are_same(a: Sizes, b: Sizes) -> bool
    ensures { result ≡ same_sizes a b }
{
    a == b
}

// The bytes of the image before the voxel of an index: that number, or another above the image's limit where it is above that; OUTSIDE
// where the index is outside its axes. Any steps are taken: each is limited before its product, so none wraps. The steps and
// the index come as slices, so that the compiler puts this loop into its callers before it knows their length.
pub fn bytes_before(dim: &[i16], n: usize, steps: &[u64], index: &[u64]) -> u64
    requires { (n ≤ 7) × (length steps.now ≡ 7) × (length index.now ≡ 7) }
    ensures { Reaches (seven_axes dim.now n) steps.now index.now result }
{
    let mut sum = 0;
    for k in 0..index.len() {
        let i = index[k];
        if grid::length_after(dim, n, k) <= i {
            return OUTSIDE;
        }
        sum += i * grid::limited(steps[k]);
    }
    sum
}
