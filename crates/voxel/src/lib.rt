// Where a voxel's bytes are, by the sizes that a record keeps (02-change-requests.md, P4; 01-scope.md, "Voxels and byte order"): no dims are
// multiplied. An index is seven numbers, and any unsigned number is taken.
#![tactic(auto)]

ghost use Rattle.std.specs.Prelude.{◌≡◌, [], ◌∷◌, ◌<◌, length, Err};
ghost use Rattle.voxel.specs.Steps.{volume, strays_by, no_axes, stepped_by, misplaced_by, stepped_in};

use grid::Sizes;
use header::{Header, Kind};
use refusal::{Refusal, Rule};
use rules::Image;

// What a voxel is located by: how the axes go, where the image is, its sizes, and which file holds it.
#[derive(Clone, Copy)]
pub struct Volume {
    pub dim: [i16; 8],
    pub offset: u64,
    pub sizes: Sizes,
    pub kind: Kind,
}

// A voxel's bytes: the place of the first, in the file that holds the image, and how many there are.
#[derive(Clone, Copy)]
pub struct Extent {
    pub place: u64,
    pub length: u64,
}

// Rule 2.
pub fn no_axes(dim: &[i16]) -> bool
    requires { 0 < length dim.now }
    ensures { result ≡ no_axes dim.now }
{
    !(1..=7).contains(&dim[0])
}

// 26: whether a voxel of `length` bytes from byte `start` of an image of `total` bytes on is none of it.
pub fn strays(total: u64, start: u64, length: u64) -> bool
    ensures { result ≡ strays_by total start length }
{
    length < 1 || grid::LIMIT < total || total < length || total - length < start
}

// The voxel of an index, by how the axes go, where the image is and its sizes, with an image file of `len` bytes. `dim` and
// `steps` may be lent from one struct.
#[tactic(auto, unfolding(crate::specs::Steps::stepped_by, refusal::specs::Table::verdict))]
pub fn locate_at<'a>(
    dim: &'a [i16],
    offset: u64,
    total: u64,
    steps: &'a [u64],
    kind: Kind,
    len: usize,
    index: &[u64],
) -> Result<Extent, Refusal>
    requires { (0 < length dim.now) × (length steps.now ≡ 7) × (length index.now ≡ 7) }
    ensures { result ≡ stepped_by (volume dim.now offset total steps.now kind) len index.now }
{
    if no_axes(dim) {
        return Err(Rule::AxisCount.at(40));
    }
    // Before 9 and 16, so that the compiler holds fewer numbers at a time.
    let before = sizes::bytes_before(dim, rules::axis_count(dim), steps, index);
    if rules::offset_outside(kind, offset, 0) {
        return Err(Rule::OffsetOutside.at(108));
    }
    let image = Image {
        offset,
        bytes: total,
    };
    if bounds::image_cut(kind, len, image) {
        return Err(Rule::ImageCut.at(0));
    }
    if before == sizes::OUTSIDE {
        return Err(Rule::IndexOutside.at(0));
    }
    let length = steps[0];
    if strays(total, before, length) {
        return Err(Rule::WrongRecord.at(0));
    }
    Ok(Extent {
        place: offset + before,
        length,
    })
}

// 2, or else a refusal of the voxel offset.
pub fn misplaced(dim: &[i16], rule: Rule) -> Refusal
    requires { 0 < length dim.now }
    ensures { result ≡ misplaced_by dim.now rule }
{
    if no_axes(dim) {
        Rule::AxisCount.at(40)
    } else {
        rule.at(108)
    }
}

// The voxel of a file that was read before, with an image file of `len` bytes.
pub fn locate_in(header: Header, len: usize, index: [u64; 7]) -> Result<Extent, Refusal>
    ensures { result ≡ stepped_in header len index }
{
    let dim = header.dim;
    let sizes = header.sizes;
    match offset::decode(header.scale.vox_offset) {
        Err(r) => Err(misplaced(&dim, r.rule)),
        Ok(offset) => locate_at(
            &dim,
            offset.whole(),
            sizes.total,
            &sizes.steps,
            header.kind,
            len,
            &index,
        ),
    }
}
