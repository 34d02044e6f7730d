// A line of voxels, all those along one axis through a given voxel, into the front of a lent buffer (02-change-requests.md, P7): of a file's bytes,
// and of a record that was read before with the file's bytes, for a window that draws many lines. Each by either engine of the crate line_copy.
#![tactic(auto)]

ghost use Rattle.std.specs.Prelude.{◌≡◌};
ghost use Rattle.line.specs.Lines.{CopiesRecord, Lines};

use header::Header;
use line_copy::Engine;
use refusal::Refusal;
use voxel::Volume;

// The line of a file that was read before. Any record gets an answer: 2, 8, 9, 11 where the file is shorter than the record says, 16 for a
// pair, 17, 26, then 22.
pub fn line_in<E: Engine>(
    header: Header,
    file: &[u8],
    image: &[u8],
    axis: u64,
    index: [u64; 7],
    out: &mut [u8],
) -> Result<usize, Refusal>
    ensures { CopiesRecord header file.now image.now axis index out.old result out.new }
{
    let dim = header.dim;
    match offset::decode(header.scale.vox_offset) {
        Err(r) => Err(voxel::misplaced(&dim, r.rule)),
        Ok(offset) => {
            let v = Volume {
                dim,
                offset: offset.whole(),
                sizes: header.sizes,
                kind: header.kind,
            };
            line_copy::line_at::<E>(v, file, image, axis, index, out)
        }
    }
}

// The line of a file's bytes, and no record is made: 1 to 15, 16 for a pair, 17, then 22. The answer and the bytes are the same by either engine.
pub fn line<E: Engine>(
    file: &[u8],
    image: &[u8],
    axis: u64,
    index: [u64; 7],
    out: &mut [u8],
) -> Result<usize, Refusal>
    ensures { Lines file.now image.now axis index out.old result out.new }
{
    let volume = by_file::volume(file)?;
    line_copy::line_at::<E>(volume, file, image, axis, index, out)
}
