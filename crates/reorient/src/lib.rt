// A turn of a volume, and the image that it makes (02-change-requests.md, P10).
#![tactic(auto)]

ghost use Rattle.std.specs.Prelude.{◌≡◌, true, false, ◌+◌, ◌*◌, ◌≤◌, ◌<◌, length, drop, get_or};
ghost use Rattle.buffer.specs.Put.{put};
ghost use Rattle.grid.specs.Grid.{voxels};
ghost use Rattle.grid.specs.Axes.{image_limit};
ghost use Rattle.reorient.specs.Reorient.{named, is_permutation, permuted, reversals, reoriented};
ghost use Rattle.reorient.specs.Reorient.{no_axis, axis_of, old_axes};

use gather_row::Axis;

// "The turn names the old axis for each new one": that of the new axes 1 to 3; and "any of these old axes reversed".
#[derive(Clone, Copy)]
pub struct Turn {
    pub axis1: usize,
    pub axis2: usize,
    pub axis3: usize,
    pub reversed1: bool,
    pub reversed2: bool,
    pub reversed3: bool,
}

// Whether a new axis shows the old axis o.
fn names(t: Turn, o: usize) -> bool
    ensures { result ≡ named t o }
{
    t.axis1 == o || t.axis2 == o || t.axis3 == o
}

// Whether each of the old axes 1 to 3 is shown; rule 30 is that one is not.
pub fn is_permutation(t: Turn) -> bool
    ensures { result ≡ is_permutation t }
{
    names(t, 1) && names(t, 2) && names(t, 3)
}

// An axis of n numbers, `step` bytes from one to the next.
fn axis_of(n: usize, step: usize, reversed: bool) -> Axis
    ensures { result ≡ axis_of n step reversed }
{
    if reversed {
        Axis {
            length: n,
            up: 0,
            down: step,
        }
    } else {
        Axis {
            length: n,
            up: step,
            down: 0,
        }
    }
}

// Whether the old axis k + 1 is reversed.
fn reversed_at(t: Turn, k: usize) -> bool
    ensures { result ≡ get_or (reversals t) k false }
{
    match k {
        0 => t.reversed1,
        1 => t.reversed2,
        2 => t.reversed3,
        _ => false,
    }
}

// The axes of the old image, of b bytes for each voxel.
fn old_axes(lengths: [u64; 7], t: Turn, b: usize) -> [Axis; 7]
    requires lengths_nonzero { 0 < voxels lengths }
    requires lengths_bound { b * voxels lengths ≤ image_limit }
    ensures { result ≡ old_axes b (reversals t) lengths }
{
    let mut axes = [Axis {
        length: 0,
        up: 0,
        down: 0,
    }; 7];
    let mut step = b;
    for k in 0..7 {
        let n = lengths[k] as usize;
        axes[k] = axis_of(n, step, reversed_at(t, k));
        step *= n;
    }
    axes
}

// The same axes, in the order of the new image.
fn new_axes(old: [Axis; 7], t: Turn) -> [Axis; 7]
    requires { is_permutation t ≡ true }
    ensures { result ≡ permuted no_axis t old }
{
    let i = t.axis1 - 1;
    let j = t.axis2 - 1;
    let k = t.axis3 - 1;
    [old[i], old[j], old[k], old[3], old[4], old[5], old[6]]
}

// The new image of the one that is in src from `from` on, into out from `at` on.
pub fn reorient_image(
    out: &mut [u8],
    at: usize,
    src: &[u8],
    from: usize,
    lengths: [u64; 7],
    t: Turn,
    b: usize,
)
    requires t_value { is_permutation t ≡ true }
    requires b_bound { b ≤ 32 }
    requires lengths_nonzero { 0 < voxels lengths }
    requires lengths_bound { b * voxels lengths ≤ image_limit }
    requires lengths_in_bounds { from + b * voxels lengths ≤ length src.now }
    requires lengths_in_bounds_2 { at + b * voxels lengths ≤ length out.old }
    ensures { out.new ≡ put out.old at (reoriented b lengths t (drop from src.now)) }
{
    let old = old_axes(lengths, t, b);
    let axes = new_axes(old, t);
    gather::gather(out, at, src, from, axes, b);
}
