// Turning a volume (02-change-requests.md, P10): a new file in a second buffer with axes 1 to 3 permuted and any of the old ones
// reversed, and a pair's new image file in a third.
#![tactic(auto)]

ghost use Rattle.std.specs.Prelude.{◌≡◌, length, Ok, Err};
ghost use Rattle.refusal.specs.Table.{verdict};
ghost use Rattle.outline.specs.Outline.{outline_of};
ghost use Rattle.reorient_file.specs.Files.{image_in, image_longer};
ghost use Rattle.turn.specs.Turned.{turn_rows, image_length, turn_answer, turned_out, turned_out_image};

use header::{Header, Kind};
use outline::Outline;
use refusal::{Refusal, Rule};
use reorient::Turn;
use reorient_file::Judged;
use rules::Image;

// The lengths of the new files; that of the image file is 0 for a single file.
#[derive(Clone, Copy)]
pub struct Lengths {
    pub file: usize,
    pub image: usize,
}

// Whether a pair's image file is longer than the third buffer.
fn is_longer(kind: Kind, image: usize, out: usize) -> bool
    ensures { result ≡ image_longer kind image out }
{
    match kind {
        Kind::Single => false,
        Kind::Pair => out < image,
    }
}

fn image_length(kind: Kind, n: usize) -> usize
    ensures { result ≡ image_length kind n }
{
    match kind {
        Kind::Single => 0,
        Kind::Pair => n,
    }
}

// The refusals after reading: of the record and the image's place, and of the lengths of the files and the buffers.
fn judge(
    header: Header,
    place: Image,
    t: Turn,
    file: usize,
    image: usize,
    out: usize,
    out_image: usize,
) -> Result<(), Refusal>
    requires { place ≡ image_in header }
    ensures { result ≡ verdict (turn_rows header t file image out out_image) }
{
    let kind = header.kind;
    if bounds::image_cut(kind, image, place) {
        return Err(Rule::ImageCut.at(0));
    }
    let dim = header.dim;
    if rules::axis_count(&dim) < 3 {
        return Err(Rule::FewerThanThreeAxes.at(0));
    }
    if !reorient::is_permutation(t) {
        return Err(Rule::NoPermutation.at(0));
    }
    if reorient_header::not_finite(header, t) {
        return Err(Rule::NoPosition.at(0));
    }
    if out < file {
        return Err(Rule::ShortBuffer.at(0));
    }
    if is_longer(kind, image, out_image) {
        return Err(Rule::ShortBuffer.at(0));
    }
    Ok(())
}

// Turns an accepted file. Its record is read without the extensions, which are copied, and without the sizes: nothing is asked of either.
fn turn_shown(
    file: &[u8],
    image: &[u8],
    outline: Outline,
    t: Turn,
    out: &mut [u8],
    out_image: &mut [u8],
) -> Result<Lengths, Refusal>
    requires { outline_of 0 file.now ≡ Ok outline }
    ensures { (result ≡ turn_answer file.now image.now t (length out.old) (length out_image.old))
        × (out.new ≡ turned_out file.now image.now t out.old out_image.old)
        × (out_image.new ≡ turned_out_image file.now image.now t out.old out_image.old) }
{
    let layout = outline.layout;
    let place = layout.image;
    let header = header::parse(file, layout.order, layout.kind, 0, listing::no_spans());
    judge(
        header,
        place,
        t,
        file.len(),
        image.len(),
        out.len(),
        out_image.len(),
    )?;
    let judged = Judged {
        header,
        place,
        turn: t,
    };
    reorient_file::put_files(out, out_image, file, image, judged);
    Ok(Lengths {
        file: file.len(),
        image: image_length(layout.kind, image.len()),
    })
}

// Turns a file, and a pair's image file, into the fronts of two lent buffers. A refused turn changes neither; for a single file
// the third buffer is neither asked for nor changed.
pub fn turn(
    file: &[u8],
    image: &[u8],
    t: Turn,
    out: &mut [u8],
    out_image: &mut [u8],
) -> Result<Lengths, Refusal>
    ensures { (result ≡ turn_answer file.now image.now t (length out.old) (length out_image.old))
        × (out.new ≡ turned_out file.now image.now t out.old out_image.old)
        × (out_image.new ≡ turned_out_image file.now image.now t out.old out_image.old) }
{
    let outline = outline::outline_of(file, 0)?;
    turn_shown(file, image, outline, t, out, out_image)
}
