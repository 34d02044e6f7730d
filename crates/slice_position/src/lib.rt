// A slice, the slice of a rank and a position of a file's bytes (01-scope.md, "Slices and positions"; 02-change-requests.md, P8). Rules 1 to
// 15 come first, by the file's outline; then the crates timing, slice_rank and position answer by the fields that they ask for,
// and no record is made.
#![tactic(auto)]

ghost use Rattle.std.specs.Prelude.{◌≡◌, ◌≤◌, length};
ghost use Rattle.slice_position.specs.Files.{acquisition_in, acquisition_at, slice_of, ranked_of, sform_in, sform_at, position_at};

use affine::Position;
use field::{Number, Order};
use position::Sform;
use refusal::Refusal;
use timing::{Acquisition, Slice};

// The fields that slice timing is read from.
#[tactic(auto, unfolding(crate::specs::Files::acquisition_in))]
fn acquisition_in(file: &[u8], order: Order) -> Acquisition
    requires { 348 ≤ length file.now }
    ensures { result ≡ acquisition_in order file.now }
{
    Acquisition {
        dim: header::dims(file, order),
        dim_info: file[39],
        slice_start: i16::read(file, 74, order),
        slice_end: i16::read(file, 120, order),
        slice_code: file[122],
        slice_duration: u32::read(file, 132, order),
    }
}

// The same, after rules 1 to 15.
fn acquisition_of(file: &[u8]) -> Result<Acquisition, Refusal>
    ensures { result ≡ acquisition_at file.now }
{
    let outline = outline::outline_of(file, 0)?;
    Ok(acquisition_in(file, outline.layout.order))
}

// The slice s of a file.
#[tactic(auto, using(crate::proofs::Shown::slice_refused, crate::proofs::Shown::slice_answered))]
pub fn slice_at(file: &[u8], s: u64) -> Result<Slice, Refusal>
    ensures { result ≡ slice_of file.now s }
{
    timing::slice_by(acquisition_of(file)?, s)
}

// The slice of a rank of a file.
#[tactic(auto, using(crate::proofs::Shown::rank_refused, crate::proofs::Shown::rank_answered))]
pub fn slice_of_rank(file: &[u8], rank: u64) -> Result<Option<u16>, Refusal>
    ensures { result ≡ ranked_of file.now rank }
{
    slice_rank::ranked_by(acquisition_of(file)?, rank)
}

// The fields that Method 3 reads.
#[tactic(auto, unfolding(crate::specs::Files::sform_in))]
fn sform_in(file: &[u8], order: Order) -> Sform
    requires { 348 ≤ length file.now }
    ensures { result ≡ sform_in order file.now }
{
    Sform {
        dim: header::dims(file, order),
        sform_code: i16::read(file, 254, order),
        srow_x: field::numbers::<u32, 4>(file, 280, order),
        srow_y: field::numbers::<u32, 4>(file, 296, order),
        srow_z: field::numbers::<u32, 4>(file, 312, order),
    }
}

// The same, after rules 1 to 15.
fn sform_of(file: &[u8]) -> Result<Sform, Refusal>
    ensures { result ≡ sform_at file.now }
{
    let outline = outline::outline_of(file, 0)?;
    Ok(sform_in(file, outline.layout.order))
}

// The position of the voxel i, j, k of a file.
#[tactic(auto, using(crate::proofs::Shown::position_refused, crate::proofs::Shown::position_answered))]
pub fn position_of(file: &[u8], i: u64, j: u64, k: u64) -> Result<Position, Refusal>
    ensures { result ≡ position_at file.now i j k }
{
    position::position_by(sform_of(file)?, i, j, k)
}
