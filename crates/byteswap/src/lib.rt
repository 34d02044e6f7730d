// Swapping the byte order of a file in place, a pair's two buffers in one call (01-scope.md, "Voxels and byte order"):
// each number of the header, the size and code of each extension, and each swap unit of the image is turned round; all
// else stays. The engine says whether the image's units are turned several together or singly (02-change-requests.md, P3).
#![tactic(auto)]

ghost use Rattle.std.specs.Prelude.{◌≡◌, Ok};
ghost use Rattle.outline.specs.Outline.{outline_of};
ghost use Rattle.byteswap.specs.Swap.{Swaps};

use header::Kind;
use outline::Outline;
use refusal::{Refusal, Rule};
use turning::Engine;

// Swaps an accepted file.
fn swap_shown<E: Engine>(file: &mut [u8], image: &mut [u8], outline: Outline) -> Result<(), Refusal>
    requires { outline_of 0 file.old ≡ Ok outline }
    ensures { Swaps file.old image.old result file.new image.new }
{
    let layout = outline.layout;
    let place = layout.image;
    if bounds::image_cut(layout.kind, image.len(), place) {
        return Err(Rule::ImageCut.at(0));
    }
    let unit = turning::unit_in(file, layout.order);
    units::turn_header(file);
    turning::turn_list(file, outline.count, layout.order);
    match layout.kind {
        Kind::Single => turning::turn_image::<E>(file, place, unit),
        Kind::Pair => turning::turn_image::<E>(image, place, unit),
    }
    Ok(())
}

// Swaps the byte order of a file and, of a pair, of its image file. A refused file is left as it is, and so is its image
// file.
pub fn swap<E: Engine>(file: &mut [u8], image: &mut [u8]) -> Result<(), Refusal>
    ensures { Swaps file.old image.old result file.new image.new }
{
    let outline = outline::outline_of(file, 0)?;
    swap_shown::<E>(file, image, outline)
}
