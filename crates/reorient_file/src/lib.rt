// The bytes of a turned file and of a pair's turned image file (02-change-requests.md, P10), each to the front of a lent buffer.
#![tactic(auto)]

ghost use Rattle.std.specs.Prelude.{◌≡◌, true, false, ◌+◌, ◌≤◌, length, drop};
ghost use Rattle.buffer.specs.Put.{put};
ghost use Rattle.voxel.specs.Voxel.{lengths_of, voxel_bytes};
ghost use Rattle.reorient.specs.Reorient.{is_permutation, reoriented};
ghost use Rattle.reorient_header.specs.After.{not_finite, header_after};
ghost use Rattle.reorient_file.specs.Files.{image_in, holder_after, with_header, file_after, image_after, Sized, Room};

use header::{Header, Kind};
use reorient::Turn;
use rules::Image;

// A turn that 30 and 23 let pass: a record whose image can be turned, where that image is, and the turn.
#[derive(Clone, Copy)]
pub struct Judged {
    pub header: Header,
    pub place: Image,
    pub turn: Turn,
    pub ghost placed: { place ≡ image_in header },
    pub ghost permutation: { is_permutation turn ≡ true },
    pub ghost finite: { not_finite turn header ≡ false },
    pub ghost sized: { Sized header },
}

// The turned image alone, to its place.
fn put_image(out: &mut [u8], src: &[u8], header: Header, from: usize, t: Turn)
    requires t_value { is_permutation t ≡ true }
    requires sized { Sized header }
    requires header_in_bounds { from + (image_in header).bytes ≤ length src.now }
    requires src_in_bounds { length src.now ≤ length out.old }
    ensures { out.new
        ≡ put out.old from (reoriented (voxel_bytes header) (lengths_of header) t (drop from src.now)) }
{
    let dim = header.dim;
    let intent = header.intent;
    let lengths = grid::seven(&dim, rules::axis_count(&dim));
    let bytes = number::natural(intent.bitpix) / 8;
    reorient::reorient_image(out, from, src, from, lengths, t, bytes as usize);
}

// The file that holds the image, with the image turned: what is before it, the image, and what is behind it.
pub fn put_holder(out: &mut [u8], src: &[u8], header: Header, image: Image, t: Turn)
    requires t_value { is_permutation t ≡ true }
    requires sized { Sized header }
    requires image_value { image ≡ image_in header }
    requires bytes_in_bounds { image.offset + image.bytes ≤ length src.now }
    requires src_in_bounds { length src.now ≤ length out.old }
    ensures { out.new ≡ put out.old 0 (holder_after t header src.now) }
{
    let from = image.offset as usize;
    let end = from + image.bytes as usize;
    buffer::copy_in(out, 0, &src[0..from]);
    put_image(out, src, header, from, t);
    buffer::copy_in(out, end, &src[end..]);
}

// The new header in place of the one in out.
pub fn put_header(out: &mut [u8], header: Header, t: Turn)
    requires t_value { is_permutation t ≡ true }
    requires header_value { not_finite t header ≡ false }
    requires in_bounds { 348 ≤ length out.old }
    ensures { out.new ≡ with_header (header_after t header) out.old }
{
    let new = reorient_header::header_after(header, t);
    encode::write_header(new, out);
}

// The new file and, of a pair, the new image file.
pub fn put_files(out: &mut [u8], out_image: &mut [u8], file: &[u8], image: &[u8], j: Judged)
    requires { Room j.header file.now image.now (length out.old) (length out_image.old) }
    ensures { (out.new ≡ put out.old 0 (file_after j.turn j.header file.now))
        × (out_image.new ≡ put out_image.old 0 (image_after j.turn j.header image.now)) }
{
    match j.header.kind {
        Kind::Single => {
            put_holder(out, file, j.header, j.place, j.turn);
            put_header(out, j.header, j.turn);
        }
        Kind::Pair => {
            buffer::copy_in(out, 0, file);
            put_header(out, j.header, j.turn);
            put_holder(out_image, image, j.header, j.place, j.turn);
        }
    }
}
