// Whether a file holds its image, by rules 11 and 16, and where the region of its extensions ends (01-scope.md, "Refusal numbers"
// and "Extensions").
#![tactic(auto)]

ghost use Rattle.std.specs.Prelude.{◌≡◌};
ghost use Rattle.rules.specs.Rules.{is_short, cut_short, image_cut, region_end};

use header::Kind;
use rules::Image;

// Whether a file of `len` bytes ends before its image does. Offset and bytes are not added: of any two numbers the sum
// could wrap.
fn is_short(len: usize, image: Image) -> bool
    ensures { result ≡ is_short len image }
{
    let n = len as u64;
    if n < image.offset {
        true
    } else {
        n - image.offset < image.bytes
    }
}

// Rule 11.
pub fn cut_short(kind: Kind, len: usize, image: Image) -> bool
    ensures { result ≡ cut_short kind len image }
{
    match kind {
        Kind::Single => is_short(len, image),
        Kind::Pair => false,
    }
}

// Rule 16. `len` is the length of a pair's image file.
pub fn image_cut(kind: Kind, len: usize, image: Image) -> bool
    ensures { result ≡ image_cut kind len image }
{
    match kind {
        Kind::Single => false,
        Kind::Pair => is_short(len, image),
    }
}

// Where the region of the extensions ends, in a file of `len` bytes.
pub fn region_end(kind: Kind, image: Image, len: usize) -> usize
    ensures { result ≡ region_end kind image len }
{
    match kind {
        Kind::Single => image.offset as usize,
        Kind::Pair => len,
    }
}
