// A voxel of a file's bytes: its place, and the bytes themselves (01-scope.md, "Voxels and byte order"). Rules 1 to 15 come first, by
// the file's outline; then the sizes give the place, by the same sum as of a record, and no record is made.
#![tactic(auto)]

ghost use Rattle.std.specs.Prelude.{◌≡◌, true, false};
ghost use Rattle.grid.specs.Grid.{within};
ghost use Rattle.grid.specs.Axes.{seven_axes};
ghost use Rattle.rules.specs.Rules.{axis_count, offset_outside, holder};
ghost use Rattle.voxel.specs.Steps.{no_axes, strays, stepped_by};
ghost use Rattle.by_file.specs.Files.{volume_in, located_of, voxel_of};

use field::Number;
use header::Kind;
use refusal::{Refusal, Rule};
use rules::Image;
use voxel::{Extent, Volume};

// What the voxels of a file are located by, or the file's refusal. Inlined, so that its numbers stay in registers.
#[inline(always)]
pub fn volume(file: &[u8]) -> Result<Volume, Refusal>
    ensures { result ≡ volume_in file.now }
{
    let layout = outline::outline_of(file, 0)?.layout;
    let dim = header::dims(file, layout.order);
    let bitpix = i16::read(file, 72, layout.order);
    Ok(Volume {
        dim,
        offset: layout.image.offset,
        sizes: sizes::sizes_in(dim, bitpix),
        kind: layout.kind,
    })
}

// A voxel by what an accepted file's voxels are located by: of the rules of `voxel::locate_at` 16 and 17 alone are left. `locate_at` is
// not called here, for with a second caller the compiler no longer puts it into the loop of the first.
#[tactic(auto, unfolding(voxel::specs::Steps::stepped_by, refusal::specs::Table::verdict))]
fn locate_by(v: Volume, len: usize, index: [u64; 7]) -> Result<Extent, Refusal>
    requires { (no_axes v.dim ≡ false) × (offset_outside v.kind v.offset 0 ≡ false)
        × (within (seven_axes v.dim (axis_count v.dim)) index ≡ true → strays v index ≡ false) }
    ensures { result ≡ stepped_by v len index }
{
    let sizes = v.sizes;
    let image = Image {
        offset: v.offset,
        bytes: sizes.total,
    };
    if bounds::image_cut(v.kind, len, image) {
        return Err(Rule::ImageCut.at(0));
    }
    let before = sizes::bytes_before(&v.dim, rules::axis_count(&v.dim), &sizes.steps, &index);
    if before == sizes::OUTSIDE {
        return Err(Rule::IndexOutside.at(0));
    }
    Ok(Extent {
        place: v.offset + before,
        length: sizes.steps[0],
    })
}

// The place and length of a voxel's bytes, or the refusal.
pub fn locate(file: &[u8], image: &[u8], index: [u64; 7]) -> Result<Extent, Refusal>
    ensures { result ≡ located_of file.now image.now index }
{
    locate_by(volume(file)?, image.len(), index)
}

// The file that holds the image.
pub fn holder<'a>(file: &'a [u8], image: &'a [u8], kind: Kind) -> &'a [u8]
    ensures { result.now ≡ holder kind file.now image.now }
{
    match kind {
        Kind::Single => file,
        Kind::Pair => image,
    }
}

// The voxel's bytes, as a part of the file or of the image file; none where `locate` refuses.
pub fn voxel<'a>(file: &'a [u8], image: &'a [u8], index: [u64; 7]) -> &'a [u8]
    ensures { result.now ≡ voxel_of file.now image.now index }
{
    let Ok(v) = volume(file) else {
        return &file[0..0];
    };
    let Ok(extent) = locate_by(v, image.len(), index) else {
        return &file[0..0];
    };
    let from = extent.place as usize;
    let end = from + extent.length as usize;
    &holder(file, image, v.kind)[from..end]
}
