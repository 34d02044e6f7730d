// Gathering voxels along one axis, each a step from the one before: the rows of which the crate `gather` makes volumes.
// Whatever the order in which the voxels are copied, each promise is that of the plain order. A function that writes one
// block behind another answers the place behind its own, so that the caller multiplies no sizes.
#![tactic(auto)]

ghost use Rattle.std.specs.Prelude.{◌≡◌, [], ◌∷◌, ◌+◌, ◌*◌, ◌≤◌, ◌<◌, length, take, drop};
ghost use Rattle.buffer.specs.Put.{put};
ghost use Rattle.gather_row.specs.Gather.{reach, gathered, Inside};

// The bytes of a cache line.
pub const LINE: usize = 64;

// An axis: how many numbers it has, and the bytes from one to the next, upwards or downwards; the other of the two is 0.
// So a step has no sign, and what holds of an axis holds of the reversed one too.
#[derive(Clone, Copy)]
pub struct Axis {
    pub length: usize,
    pub up: usize,
    pub down: usize,
}

// The place of number j of an axis.
pub fn place_of(from: usize, axis: Axis, j: usize) -> usize
    requires j_lt_length { j < axis.length }
    requires j_bound { from + reach axis j < 18446744073709551616 }
    ensures { (result ≡ from + reach axis j) × (j < 18446744073709551615) }
{
    from + (axis.up * j + axis.down * (axis.length - 1 - j))
}

// A voxel of b bytes, by way of a local array: all its bytes are then read before one is stored, and where b is a
// constant the compiler makes one load and one store, and no array.
fn copy_voxel(out: &mut [u8], to: usize, src: &[u8], from: usize, b: usize)
    requires { (b ≤ 64) × ((from + b ≤ length src.now) × (to + b ≤ length out.old)) }
    ensures { out.new ≡ put out.old to (take b (drop from src.now)) }
{
    let mut voxel = [0u8; LINE];
    let end = from + b;
    buffer::copy_in(&mut voxel, 0, &src[from..end]);
    buffer::copy_in(out, to, &voxel[0..b]);
}

// The voxels of one axis, one by one. The place goes on from voxel to voxel; past the last one it might lie below 0, so
// that one is copied behind the loop.
fn one_by_one(out: &mut [u8], at: usize, src: &[u8], from: usize, axis: Axis, b: usize) -> usize
    requires b_bound { b ≤ 64 }
    requires inside { Inside b (length src.now) from (axis ∷ []) }
    requires axis_in_bounds { at + length (gathered b src.now from (axis ∷ [])) ≤ length out.old }
    ensures { (out.new ≡ put out.old at (gathered b src.now from (axis ∷ [])))
        × (result ≡ at + length (gathered b src.now from (axis ∷ []))) }
{
    let last = axis.length - 1;
    let mut place = place_of(from, axis, 0);
    let mut to = at;
    for j in 0..last {
        copy_voxel(out, to, src, place, b);
        place = place - axis.down + axis.up;
        to += b;
    }
    copy_voxel(out, to, src, place, b);
    to + b
}

// The same, with the common widths as constants: the compiler makes a loop for each.
pub fn by_width(out: &mut [u8], at: usize, src: &[u8], from: usize, axis: Axis, b: usize) -> usize
    requires b_bound { b ≤ 64 }
    requires inside { Inside b (length src.now) from (axis ∷ []) }
    requires axis_in_bounds { at + length (gathered b src.now from (axis ∷ [])) ≤ length out.old }
    ensures { (out.new ≡ put out.old at (gathered b src.now from (axis ∷ [])))
        × (result ≡ at + length (gathered b src.now from (axis ∷ []))) }
{
    match b {
        1 => one_by_one(out, at, src, from, axis, 1),
        2 => one_by_one(out, at, src, from, axis, 2),
        3 => one_by_one(out, at, src, from, axis, 3),
        4 => one_by_one(out, at, src, from, axis, 4),
        8 => one_by_one(out, at, src, from, axis, 8),
        16 => one_by_one(out, at, src, from, axis, 16),
        32 => one_by_one(out, at, src, from, axis, 32),
        64 => one_by_one(out, at, src, from, axis, 64),
        _ => one_by_one(out, at, src, from, axis, b),
    }
}

// n bytes that lie side by side, a line at a time: by a plain copy, rows of 2,048 bytes that come in reverse order took
// four times as long.
fn copy_run(out: &mut [u8], at: usize, src: &[u8], from: usize, n: usize)
    requires { (from + n ≤ length src.now) × (at + n ≤ length out.old) }
    ensures { out.new ≡ put out.old at (take n (drop from src.now)) }
{
    let mut done: usize = 0;
    while LINE <= n - done {
        copy_voxel(out, at + done, src, from + done, LINE);
        done += LINE;
    }
    let start = from + done;
    let end = from + n;
    buffer::copy_in(out, at + done, &src[start..end]);
}

// The voxels of one axis where they lie side by side, all at once.
fn side_by_side(out: &mut [u8], at: usize, src: &[u8], from: usize, axis: Axis, b: usize) -> usize
    requires up_value { (axis.up ≡ b) × (axis.down ≡ 0) }
    requires inside { Inside b (length src.now) from (axis ∷ []) }
    requires axis_in_bounds { at + length (gathered b src.now from (axis ∷ [])) ≤ length out.old }
    ensures { (out.new ≡ put out.old at (gathered b src.now from (axis ∷ [])))
        × (result ≡ at + length (gathered b src.now from (axis ∷ []))) }
{
    let n = axis.length * b;
    copy_run(out, at, src, from, n);
    at + n
}

// The voxels of one axis where they lie side by side in reverse, at most a line of them: the line is read at once.
fn line_back(out: &mut [u8], at: usize, src: &[u8], from: usize, axis: Axis, b: usize) -> usize
    requires b_bound { (b ≤ 64) × (axis.length * b ≤ 64) }
    requires up_value { (axis.up ≡ 0) × (axis.down ≡ b) }
    requires inside { Inside b (length src.now) from (axis ∷ []) }
    requires axis_in_bounds { at + length (gathered b src.now from (axis ∷ [])) ≤ length out.old }
    ensures { (out.new ≡ put out.old at (gathered b src.now from (axis ∷ [])))
        × (result ≡ at + length (gathered b src.now from (axis ∷ []))) }
{
    let mut line = [0u8; LINE];
    let n = axis.length * b;
    let end = from + n;
    buffer::copy_in(&mut line, 0, &src[from..end]);
    one_by_one(out, at, &line, 0, axis, b)
}

// The same for any number of them, the last line first.
fn backwards(out: &mut [u8], at: usize, src: &[u8], from: usize, axis: Axis, b: usize) -> usize
    requires le_b { (1 ≤ b) × (b ≤ 32) }
    requires up_value { (axis.up ≡ 0) × (axis.down ≡ b) }
    requires inside { Inside b (length src.now) from (axis ∷ []) }
    requires axis_in_bounds { at + length (gathered b src.now from (axis ∷ [])) ≤ length out.old }
    ensures { (out.new ≡ put out.old at (gathered b src.now from (axis ∷ [])))
        × (result ≡ at + length (gathered b src.now from (axis ∷ []))) }
{
    let side = LINE / b;
    let n = axis.length;
    let mut to = at;
    let mut j: usize = 0;
    while j < n {
        let left = n - j;
        let m = left.min(side);
        let part = Axis {
            length: m,
            up: 0,
            down: b,
        };
        to = line_back(out, to, src, from + b * (left - m), part, b);
        j += m;
    }
    to
}

// The same, with the widths as constants of which a line has many voxels; wider ones are as fast one by one.
fn reversed(out: &mut [u8], at: usize, src: &[u8], from: usize, axis: Axis, b: usize) -> usize
    requires b_bound { b ≤ 64 }
    requires up_value { (axis.up ≡ 0) × (axis.down ≡ b) }
    requires inside { Inside b (length src.now) from (axis ∷ []) }
    requires axis_in_bounds { at + length (gathered b src.now from (axis ∷ [])) ≤ length out.old }
    ensures { (out.new ≡ put out.old at (gathered b src.now from (axis ∷ [])))
        × (result ≡ at + length (gathered b src.now from (axis ∷ []))) }
{
    match b {
        1 => backwards(out, at, src, from, axis, 1),
        2 => backwards(out, at, src, from, axis, 2),
        _ => by_width(out, at, src, from, axis, b),
    }
}

// The voxels of one axis, in whichever way.
pub fn row(out: &mut [u8], at: usize, src: &[u8], from: usize, axis: Axis, b: usize) -> usize
    requires b_bound { b ≤ 64 }
    requires inside { Inside b (length src.now) from (axis ∷ []) }
    requires axis_in_bounds { at + length (gathered b src.now from (axis ∷ [])) ≤ length out.old }
    ensures { (out.new ≡ put out.old at (gathered b src.now from (axis ∷ [])))
        × (result ≡ at + length (gathered b src.now from (axis ∷ []))) }
{
    if axis.down == 0 && axis.up == b {
        side_by_side(out, at, src, from, axis, b)
    } else if axis.up == 0 && axis.down == b {
        reversed(out, at, src, from, axis, b)
    } else {
        by_width(out, at, src, from, axis, b)
    }
}
