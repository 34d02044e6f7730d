// Rules 5 to 10 of the refusal table: what is judged of a header's fields alone, for the reader and for the writer
// (01-scope.md, "Refusal numbers" and "The header rules").
#![tactic(auto)]

ghost use Rattle.std.specs.Prelude.{◌≡◌, true, ◌≤◌, Err, Some, Ok};
ghost use Rattle.number.specs.Natural.{natural_of};
ghost use Rattle.datatype.specs.Datatypes.{datatype_of, is_number};
ghost use Rattle.refusal.specs.declared.Refusal.{Refusal};
ghost use Rattle.offset.specs.Offset.{offset_of};
ghost use Rattle.rules.specs.Rules.{judged_of, shape_of_record, record_judged, offset_outside, axis_count, first_bad};

use datatype::Format;
use header::{Header, Kind};
use offset::Offset;
use refusal::{Refusal, Rule};

// The fields that these rules judge. The one of a single byte is last, so that the compiler copies the others whole.
#[derive(Clone, Copy)]
pub struct Shape {
    pub dim: [i16; 8],
    pub datatype: i16,
    pub bitpix: i16,
    pub vox_offset: u32,
    pub kind: Kind,
}

// Where the image is: the voxel offset as a whole number, and how many bytes there are.
#[derive(Clone, Copy)]
pub struct Image {
    pub offset: u64,
    pub bytes: u64,
}

// dim[0], the number of axes.
pub fn axis_count(dim: &[i16]) -> usize
    ensures { (result ≡ axis_count dim.now) × (result ≤ 32767) }
{
    grid::axis_length(dim, 0) as usize
}

// Rule 9, for a whole voxel offset and the length of the header file.
pub fn offset_outside(kind: Kind, offset: u64, len: usize) -> bool
    ensures { result ≡ offset_outside kind offset len }
{
    if offset::LIMIT < offset {
        return true;
    }
    match kind {
        Kind::Single => offset < 352,
        Kind::Pair => offset::LIMIT < len as u64,
    }
}

// Rules 9 and 10.
fn judge_image(
    shape: Shape,
    len: usize,
    format: Format,
    offset: Offset,
) -> Result<(Image, bool), Refusal>
    requires { (first_bad shape ≡ 0) × (datatype_of shape.datatype ≡ Some format)
        × (is_number shape.bitpix (natural_of format.bits) ≡ true)
        × (offset_of shape.vox_offset ≡ Ok offset) }
    ensures { result ≡ judged_of shape len }
{
    let kind = shape.kind;
    let at = offset.whole();
    if offset_outside(kind, at, len) {
        return Err(Rule::OffsetOutside.at(108));
    }
    let dim = shape.dim;
    let bytes = grid::image_bytes(&dim, axis_count(&dim), format.bytes);
    if grid::LIMIT < bytes {
        return Err(Rule::ImageTooLarge.at(40));
    }
    Ok((Image { offset: at, bytes }, offset.is_aligned()))
}

// Rules 7 and 8, and then the rest.
fn judge_format(shape: Shape, len: usize, format: Format) -> Result<(Image, bool), Refusal>
    requires { (first_bad shape ≡ 0) × (datatype_of shape.datatype ≡ Some format) }
    ensures { result ≡ judged_of shape len }
{
    if shape.bitpix != format.bits {
        return Err(Rule::WrongBitpix.at(72));
    }
    let offset = offset::decode(shape.vox_offset)?;
    judge_image(shape, len, format, offset)
}

// Rules 5 and 6, and then the rest. `len` is the length of the header file, which only a pair's rule 9 asks for.
pub fn judge(shape: Shape, len: usize) -> Result<(Image, bool), Refusal>
    ensures { result ≡ judged_of shape len }
{
    let dim = shape.dim;
    let bad = grid::first_below_one(&dim, axis_count(&dim));
    if 0 < bad {
        return Err(Rule::AxisBelowOne.at(40 + 2 * bad));
    }
    let datatype = datatype::datatype_of(shape.datatype);
    match datatype {
        Some(format) => judge_format(shape, len, format),
        None => Err(Rule::UnknownDatatype.at(70)),
    }
}

// The fields of a record that these rules judge.
fn shape_of(h: Header) -> Shape
    ensures { result ≡ shape_of_record h }
{
    let kind = h.kind;
    let dim = h.dim;
    let intent = h.intent;
    let scale = h.scale;
    Shape {
        kind,
        dim,
        datatype: intent.datatype,
        bitpix: intent.bitpix,
        vox_offset: scale.vox_offset,
    }
}

// Rules 2 and 5 to 10 of a record.
pub fn judge_record(h: Header) -> Result<(Image, bool), Refusal>
    ensures { result ≡ record_judged h }
{
    let shape = shape_of(h);
    let dim = shape.dim;
    let n = axis_count(&dim);
    if n < 1 {
        return Err(Rule::AxisCount.at(40));
    }
    if 7 < n {
        return Err(Rule::AxisCount.at(40));
    }
    judge(shape, 0)
}
