// Copying a line of voxels into the front of a lent buffer, by the sizes that a record keeps (02-change-requests.md, P7). Two engines do it:
// one adds the step of the axis, the other locates each voxel. Both leave the same bytes, as the trait's contract says.
#![tactic(auto)]

ghost use Rattle.std.specs.Prelude.{◌≡◌, [], ◌∷◌, ◌+◌, ◌≤◌, length};
ghost use Rattle.buffer.specs.Put.{put};
ghost use Rattle.gather_row.specs.Gather.{gathered, Inside};
ghost use Rattle.by_file.specs.Files.{part_of};
ghost use Rattle.line_plan.specs.Line.{course_of, Lies};
ghost use Rattle.line_copy.specs.Copied.{CopiesIn, line_bytes, Holds};

use line_plan::Course;
use refusal::Refusal;
use voxel::{Extent, Volume};

// How a line is copied whose course is planned, from the file that holds the image.
pub trait Engine {
    fn copy(
        out: &mut [u8],
        src: &[u8],
        v: Volume,
        image: usize,
        axis: usize,
        index: [u64; 7],
        course: Course,
    ) -> usize
        requires lies { Lies v (length src.now) image axis index (length out.old) }
        requires index_value { course_of v axis index ≡ course }
        ensures { (out.new ≡ put out.old 0 (line_bytes v src.now image axis index))
            × (result ≡ length (line_bytes v src.now image axis index)) };
}

// The fast engine: by the step of the axis.
#[derive(Clone, Copy)]
pub struct Steps;

// The plain engine: each voxel is located by its own seven indexes.
#[derive(Clone, Copy)]
pub struct Voxels;

// One copy where the voxels lie side by side, and else from voxel to voxel by the step.
fn by_steps(out: &mut [u8], src: &[u8], course: Course) -> usize
    requires bytes_bound { (course.bytes ≤ 64) × (course.axis.down ≡ 0) }
    requires inside { Inside course.bytes (length src.now) course.from (course.axis ∷ []) }
    requires axis_in_bounds { length (gathered course.bytes src.now course.from (course.axis ∷ [])) ≤ length out.old }
    ensures { (out.new
        ≡ put out.old 0 (gathered course.bytes src.now course.from (course.axis ∷ [])))
        × (result ≡ length (gathered course.bytes src.now course.from (course.axis ∷ []))) }
{
    let Course { from, axis, bytes } = course;
    if axis.up == bytes {
        let n = axis.length * bytes;
        let end = from + n;
        buffer::copy_in(out, 0, &src[from..end]);
        return n;
    }
    gather_row::by_width(out, 0, src, from, axis, bytes)
}

// A located voxel, at `to`; answers the place behind it.
fn copy_located(out: &mut [u8], to: usize, src: &[u8], located: Result<Extent, Refusal>) -> usize
    requires holds { Holds located (length src.now) }
    requires src_in_bounds { to + length (part_of located src.now) ≤ length out.old }
    ensures { (out.new ≡ put out.old to (part_of located src.now))
        × (result ≡ to + length (part_of located src.now)) }
{
    let Ok(extent) = located else {
        return to;
    };
    let from = extent.place as usize;
    let n = extent.length as usize;
    let end = from + n;
    buffer::copy_in(out, to, &src[from..end]);
    to + n
}

impl Engine for Steps {
    fn copy(
        out: &mut [u8],
        src: &[u8],
        _v: Volume,
        _image: usize,
        _axis: usize,
        _index: [u64; 7],
        course: Course,
    ) -> usize {
        by_steps(out, src, course)
    }
}

impl Engine for Voxels {
    fn copy(
        out: &mut [u8],
        src: &[u8],
        v: Volume,
        image: usize,
        axis: usize,
        index: [u64; 7],
        _course: Course,
    ) -> usize {
        let sizes = v.sizes;
        let count = grid::axis_length(&v.dim, axis);
        let mut to = 0;
        for k in 0..count {
            let mut at = index;
            at[axis - 1] = k;
            let located = voxel::locate_at(
                &v.dim,
                v.offset,
                sizes.total,
                &sizes.steps,
                v.kind,
                image,
                &at,
            );
            to = copy_located(out, to, src, located);
        }
        to
    }
}

// The line along an axis through the voxel of an index, of a file and, of a pair, its image file.
pub fn line_at<E: Engine>(
    v: Volume,
    file: &[u8],
    image: &[u8],
    axis: u64,
    index: [u64; 7],
    out: &mut [u8],
) -> Result<usize, Refusal>
    ensures { CopiesIn v file.now image.now axis index out.old result out.new }
{
    let n = image.len();
    let course = line_plan::plan(v, file.len(), n, axis, index, out.len())?;
    let src = by_file::holder(file, image, v.kind);
    Ok(E::copy(out, src, v, n, axis as usize, index, course))
}
