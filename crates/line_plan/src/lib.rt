// A line of voxels, all those along one axis through a given voxel (02-change-requests.md, P7): its rules, and where its voxels are,
// by the sizes that a record keeps.
#![tactic(auto)]

ghost use Rattle.std.specs.Prelude.{◌≡◌, false, Ok, Err};
ghost use Rattle.refusal.specs.Table.{verdict, decided};
ghost use Rattle.grid.specs.Axes.{seven_axes};
ghost use Rattle.grid.specs.Sizes.{Reaches};
ghost use Rattle.rules.specs.Rules.{axis_count, offset_outside};
ghost use Rattle.voxel.specs.Steps.{no_axes};
ghost use Rattle.line_plan.specs.Line.{line_outside, course_of, planned_by, place_rows, own_rows, size_rows};

use gather_row::Axis;
use refusal::{Refusal, Rule};
use rules::Image;
use voxel::Volume;

// The most bytes that a voxel of any datatype has.
const WIDEST: u64 = 32;

// Where a line's voxels are: the place of the first in the file that holds the image, how many follow at which step, and the
// bytes of each.
#[derive(Clone, Copy)]
pub struct Course {
    pub from: usize,
    pub axis: Axis,
    pub bytes: usize,
}

// The rules up to 16, with a file and an image file of these lengths.
#[tactic(auto, unfolding(refusal::specs::Table::verdict))]
fn judge(v: Volume, file: usize, image: usize) -> Result<(), Refusal>
    ensures { result ≡ verdict (place_rows v file image) }
{
    let place = Image {
        offset: v.offset,
        bytes: v.sizes.total,
    };
    if voxel::no_axes(&v.dim) {
        return Err(Rule::AxisCount.at(40));
    }
    if rules::offset_outside(v.kind, v.offset, 0) {
        return Err(Rule::OffsetOutside.at(108));
    }
    if bounds::cut_short(v.kind, file, place) {
        return Err(Rule::FileCut.at(108));
    }
    if bounds::image_cut(v.kind, image, place) {
        return Err(Rule::ImageCut.at(0));
    }
    Ok(())
}

// The rules after 17, with a buffer of `out` bytes, and the line's course, where the index is inside and `before` bytes of the image, as far as
// rule 10 tells, are before its voxel. The products are those of the place of the first voxel, of the last one and of the bytes in all.
fn course_of(
    v: Volume,
    axis: usize,
    index: [u64; 7],
    before: u64,
    out: usize,
) -> Result<Course, Refusal>
    requires { (no_axes v.dim ≡ false) × (offset_outside v.kind v.offset 0 ≡ false)
        × (line_outside v.dim axis index ≡ false)
        × Reaches (seven_axes v.dim (axis_count v.dim)) v.sizes.steps index before }
    ensures { result ≡ decided (verdict (size_rows v axis index out)) (Ok (course_of v axis index)) Err }
{
    let i = index[axis - 1];
    let step = v.sizes.steps[axis - 1];
    let count = grid::axis_length(&v.dim, axis);
    let bytes = v.sizes.steps[0];
    let last = before + (count - 1 - i) * grid::limited(step);
    if voxel::strays(v.sizes.total, last, bytes) || WIDEST < bytes {
        return Err(Rule::WrongRecord.at(0));
    }
    if (out as u64) < count * bytes {
        return Err(Rule::ShortBuffer.at(0));
    }
    let first = before - i * step;
    Ok(Course {
        from: (v.offset + first) as usize,
        axis: Axis {
            length: count as usize,
            up: step as usize,
            down: 0,
        },
        bytes: bytes as usize,
    })
}

// 17, of the axis number and of the index, and then the rest.
#[inline(always)]
#[tactic(auto, unfolding(refusal::specs::Table::verdict))]
fn along(v: Volume, axis: u64, index: [u64; 7], out: usize) -> Result<Course, Refusal>
    requires { (no_axes v.dim ≡ false) × (offset_outside v.kind v.offset 0 ≡ false) }
    ensures { result ≡ decided (verdict (own_rows v axis index out)) (Ok (course_of v axis index)) Err }
{
    let n = rules::axis_count(&v.dim);
    if axis < 1 || (n as u64) < axis {
        return Err(Rule::IndexOutside.at(0));
    }
    let before = sizes::bytes_before(&v.dim, n, &v.sizes.steps, &index);
    if before == sizes::OUTSIDE {
        return Err(Rule::IndexOutside.at(0));
    }
    course_of(v, axis as usize, index, before, out)
}

// The course of the line along the axis through the voxel of an index; or the refusal. Inlined, since lines are drawn in a loop
// and it is called once for each engine.
#[inline(always)]
#[tactic(auto, unfolding(crate::specs::Line::planned_by, refusal::specs::Table::verdict))]
pub fn plan(
    v: Volume,
    file: usize,
    image: usize,
    axis: u64,
    index: [u64; 7],
    out: usize,
) -> Result<Course, Refusal>
    ensures { result ≡ planned_by v file image axis index out }
{
    judge(v, file, image)?;
    along(v, axis, index, out)
}
