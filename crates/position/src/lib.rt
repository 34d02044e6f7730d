// Positions, by the fields that Method 3 reads or by a record: 01-scope.md, "Slices and positions", second paragraph. The
// binary32 arithmetic is that of the crate affine; here stand rules 17 and 23, and which comes first.
#![tactic(auto)]

ghost use Rattle.std.specs.Prelude.{◌≡◌, true, [], ◌∷◌, ◌≤◌, Err};
ghost use Rattle.grid.specs.Grid.{within};
ghost use Rattle.position.specs.Positions.{length_at, three_axes, SmallIndex, position_by, sform_of, position_in};

use affine::Position;
use header::Header;
use refusal::{Refusal, Rule};

// The fields that Method 3 reads: the dims, sform_code and the three rows, each number by its bits.
#[derive(Clone, Copy)]
pub struct Sform {
    pub dim: [i16; 8],
    pub sform_code: i16,
    pub srow_x: [u32; 4],
    pub srow_y: [u32; 4],
    pub srow_z: [u32; 4],
}

// The length of an axis: 1 past dim[0].
fn length_at(dim: &[i16], axis: usize) -> u64
    ensures { (result ≡ length_at dim.now axis) × (result ≤ 32767) }
{
    if axis <= rules::axis_count(dim) {
        grid::axis_length(dim, axis)
    } else {
        1
    }
}

// Whether each of three indexes is inside its axis.
#[tactic(auto, using(crate::proofs::Answers::three_within))]
fn is_inside(dim: &[i16], i: u64, j: u64, k: u64) -> bool
    ensures is { result ≡ within (three_axes dim.now) (i ∷ j ∷ k ∷ []) }
    ensures small { result ≡ true → SmallIndex i j k }
{
    let first = i < length_at(dim, 1);
    let second = j < length_at(dim, 2);
    let third = k < length_at(dim, 3);
    first & (second & third)
}

// The position of the voxel i, j, k by the fields that Method 3 reads. Any fields may be asked.
#[tactic(auto, using(crate::proofs::Answers::position_outside, crate::proofs::Answers::position_unset))]
pub fn position_by(f: Sform, i: u64, j: u64, k: u64) -> Result<Position, Refusal>
    ensures { result ≡ position_by f i j k }
{
    if !is_inside(&f.dim, i, j, k) {
        return Err(Rule::IndexOutside.at(0));
    }
    if f.sform_code <= 0 {
        return Err(Rule::NoPosition.at(0));
    }
    let placed = affine::place(f.srow_x, f.srow_y, f.srow_z, i as u16, j as u16, k as u16);
    placed.ok_or(Rule::NoPosition.at(0))
}

// These fields of a record.
fn sform_of(header: Header) -> Sform
    ensures { result ≡ sform_of header }
{
    let dim = header.dim;
    let srow_x = header.rows.srow_x;
    let srow_y = header.rows.srow_y;
    let srow_z = header.rows.srow_z;
    Sform {
        dim,
        sform_code: header.quatern.sform_code,
        srow_x,
        srow_y,
        srow_z,
    }
}

// The position of the voxel i, j, k by a record. Any record may be asked.
pub fn position_in(header: Header, i: u64, j: u64, k: u64) -> Result<Position, Refusal>
    ensures { result ≡ position_in header i j k }
{
    position_by(sform_of(header), i, j, k)
}
