// Gathering voxels from places that lie in a grid, each axis with a step of its own: what turning a volume is made of.
// Whatever the order in which the voxels are copied, each promise is that of the plain order. A function that writes one
// block behind another answers the place behind its own, so that the caller multiplies no sizes.
#![tactic(auto)]

ghost use Rattle.std.specs.Prelude.{◌≡◌, [], ◌∷◌, true, ℕ, ◌+◌, ◌-◌, ◌*◌, ◌≤◌, ◌<◌, length, take};
ghost use Rattle.buffer.specs.Put.{put};
ghost use Rattle.gather_row.specs.Gather.{reach, gathered, Inside};
ghost use Rattle.gather.specs.Rows.{laid, stacked, Tiled};

use gather_row::{Axis, LINE};

// The bytes of a tile: 1,024 lines.
const TILE: usize = 65536;

// A row of x for each number of y, `pitch` bytes from one to the next.
fn rows(
    out: &mut [u8],
    at: usize,
    pitch: usize,
    src: &[u8],
    from: usize,
    x: Axis,
    y: Axis,
    b: usize,
)
    requires b_bound { b ≤ 64 }
    requires inside { Inside b (length src.now) from (x ∷ (y ∷ [])) }
    requires b_in_bounds { at + pitch * (y.length - 1) + x.length * b ≤ length out.old }
    ensures { out.new
        ≡ laid at pitch (λ j. gathered b src.now (from + reach y j) (x ∷ [])) y.length out.old }
{
    for j in 0..y.length {
        gather_row::row(
            out,
            at + pitch * j,
            src,
            gather_row::place_of(from, y, j),
            x,
            b,
        );
    }
}

// The same where the voxels of y lie side by side and take a line at most: for each number of x their run is copied
// into the block, and the rows are taken from there. So each line of the source is read once.
fn tile(
    out: &mut [u8],
    at: usize,
    pitch: usize,
    src: &[u8],
    from: usize,
    x: Axis,
    y: Axis,
    b: usize,
    block: &mut [u8],
)
    requires tiled { (Tiled b x y) × ((b ≤ 32) × ((y.length * b ≤ 64) × (65536 ≤ length block.old))) }
    requires inside { Inside b (length src.now) from (x ∷ (y ∷ [])) }
    requires b_in_bounds { at + pitch * (y.length - 1) + x.length * b ≤ length out.old }
    ensures { out.new
        ≡ laid at pitch (λ j. gathered b src.now (from + reach y j) (x ∷ [])) y.length out.old }
{
    let run = y.length * b;
    gather_row::by_width(block, 0, src, from, x, run);
    let column = Axis {
        length: x.length,
        up: run,
        down: 0,
    };
    rows(out, at, pitch, block, 0, column, y, b);
}

// The same for any number of them, tile after tile.
fn tiles(
    out: &mut [u8],
    at: usize,
    pitch: usize,
    src: &[u8],
    from: usize,
    x: Axis,
    y: Axis,
    b: usize,
    block: &mut [u8],
)
    requires tiled { (Tiled b x y) × ((b ≤ 32) × (65536 ≤ length block.old)) }
    requires inside { Inside b (length src.now) from (x ∷ (y ∷ [])) }
    requires b_in_bounds { at + pitch * (y.length - 1) + x.length * b ≤ length out.old }
    ensures { out.new
        ≡ laid at pitch (λ j. gathered b src.now (from + reach y j) (x ∷ [])) y.length out.old }
{
    let side = LINE / b;
    let n = y.length;
    let mut j: usize = 0;
    while j < n {
        let left = n - j;
        let m = left.min(side);
        let part = Axis {
            length: m,
            up: y.up,
            down: y.down,
        };
        let low = from + (y.up * j + y.down * (left - m));
        tile(out, at + pitch * j, pitch, src, low, x, part, b, block);
        j += m;
    }
}

// Whether tiles of x by y can be taken, and pay: with a single number of y they do not.
fn is_tiled(x: Axis, y: Axis, b: usize) -> bool
    ensures { result ≡ true → Tiled b x y }
{
    1 <= b
        && x.length <= TILE / LINE
        && 2 <= y.length
        && ((y.down == 0 && y.up == b) || (y.up == 0 && y.down == b))
}

// A row of x for each number of y, either way.
fn plane(
    out: &mut [u8],
    at: usize,
    pitch: usize,
    src: &[u8],
    from: usize,
    x: Axis,
    y: Axis,
    b: usize,
    block: &mut [u8],
)
    requires b_bound { (b ≤ 32) × (65536 ≤ length block.old) }
    requires inside { Inside b (length src.now) from (x ∷ (y ∷ [])) }
    requires b_in_bounds { at + pitch * (y.length - 1) + x.length * b ≤ length out.old }
    ensures { out.new
        ≡ laid at pitch (λ j. gathered b src.now (from + reach y j) (x ∷ [])) y.length out.old }
{
    if is_tiled(x, y, b) {
        tiles(out, at, pitch, src, from, x, y, b, block);
    } else {
        rows(out, at, pitch, src, from, x, y, b);
    }
}

// A plane of x by y for each number of z, `lift` bytes from one to the next.
fn planes(
    out: &mut [u8],
    at: usize,
    lift: usize,
    pitch: usize,
    src: &[u8],
    from: usize,
    x: Axis,
    y: Axis,
    z: Axis,
    b: usize,
    block: &mut [u8],
)
    requires b_bound { (b ≤ 32) × (65536 ≤ length block.old) }
    requires by_index { (k : ℕ) → k < z.length → Inside b (length src.now) (from + reach z k) (x ∷ (y ∷ [])) }
    requires b_in_bounds { at + lift * (z.length - 1) + pitch * (y.length - 1) + x.length * b ≤ length out.old }
    ensures { out.new
        ≡ stacked at lift pitch (λ k j. gathered b src.now (from + reach z k + reach y j) (x ∷ []))
        y.length z.length out.old }
{
    for k in 0..z.length {
        plane(
            out,
            at + lift * k,
            pitch,
            src,
            gather_row::place_of(from, z, k),
            x,
            y,
            b,
            block,
        );
    }
}

// The voxels of three axes. Where those of the slowest lie side by side, that axis goes into the planes, for the tiles.
fn volume(
    out: &mut [u8],
    at: usize,
    src: &[u8],
    from: usize,
    x: Axis,
    y: Axis,
    z: Axis,
    b: usize,
    block: &mut [u8],
) -> usize
    requires b_bound { (b ≤ 32) × (65536 ≤ length block.old) }
    requires inside { Inside b (length src.now) from (x ∷ (y ∷ (z ∷ []))) }
    requires z_in_bounds { at + length (gathered b src.now from (x ∷ (y ∷ (z ∷ [])))) ≤ length out.old }
    ensures { (out.new ≡ put out.old at (gathered b src.now from (x ∷ (y ∷ (z ∷ [])))))
        × (result ≡ at + length (gathered b src.now from (x ∷ (y ∷ (z ∷ []))))) }
{
    let pitch = x.length * b;
    let lift = pitch * y.length;
    let end = at + lift * z.length;
    if is_tiled(x, z, b) {
        planes(out, at, pitch, lift, src, from, x, z, y, b, block);
        return end;
    }
    planes(out, at, lift, pitch, src, from, x, y, z, b, block);
    end
}

// The voxels of axes 0 to k: the blocks of axis k, one after another, each by a call for one axis less.
fn up_to(
    out: &mut [u8],
    at: usize,
    src: &[u8],
    from: usize,
    axes: [Axis; 7],
    k: usize,
    b: usize,
    block: &mut [u8],
) -> usize
    requires le_k { (2 ≤ k) × (k < 7) }
    requires b_bound { (b ≤ 32) × (65536 ≤ length block.old) }
    requires inside { Inside b (length src.now) from (take (k + 1) axes) }
    requires axes_in_bounds { at + length (gathered b src.now from (take (k + 1) axes)) ≤ length out.old }
    ensures { (out.new ≡ put out.old at (gathered b src.now from (take (k + 1) axes)))
        × (result ≡ at + length (gathered b src.now from (take (k + 1) axes))) }
{
    let axis = axes[k];
    if k == 2 {
        return volume(out, at, src, from, axes[0], axes[1], axis, b, block);
    }
    let mut to = at;
    for j in 0..axis.length {
        to = up_to(
            out,
            to,
            src,
            gather_row::place_of(from, axis, j),
            axes,
            k - 1,
            b,
            block,
        );
    }
    to
}

// The voxels of all seven axes into out from `at`, each of b bytes; `from` is the lowest place in src.
pub fn gather(out: &mut [u8], at: usize, src: &[u8], from: usize, axes: [Axis; 7], b: usize)
    requires b_bound { b ≤ 32 }
    requires inside { Inside b (length src.now) from axes }
    requires axes_in_bounds { at + length (gathered b src.now from axes) ≤ length out.old }
    ensures { out.new ≡ put out.old at (gathered b src.now from axes) }
{
    let mut block = [0u8; TILE];
    up_to(out, at, src, from, axes, 6, b, &mut block);
}
