// The outline of a file: rules 1 to 15 judged as reading judges them, with no record made (01-scope.md, "A file is accepted
// when none of 1..15 holds of its bytes"). The calls that want little of a file answer from it; the crate reader makes the record.
#![tactic(auto)]

ghost use Rattle.std.specs.Prelude.{◌≡◌, true, ◌≤◌, min, length, Ok};
ghost use Rattle.layout.specs.File.{checked_of};
ghost use Rattle.listing.specs.Scan.{scan_of};
ghost use Rattle.reader.specs.Reading.{extensions_of};
ghost use Rattle.outline.specs.Outline.{outline_in, outline_of};

use extension::Span;
use layout::Layout;
use refusal::Refusal;

// What is known of an accepted file: its layout, how many extensions it has, and the one that is wanted, zeros where
// there is none.
#[derive(Clone, Copy)]
pub struct Outline {
    pub layout: Layout,
    pub count: usize,
    pub span: Span,
}

// How many extensions a file has that rules 1 to 12 pass, and the one that is wanted.
fn scan_in(file: &[u8], layout: Layout, wanted: usize) -> Result<(usize, Span), Refusal>
    requires { checked_of file.now ≡ Ok layout }
    ensures { result ≡ scan_of wanted (extensions_of layout file.now) }
{
    if layout::has_extensions(file) {
        let order = layout.order;
        let kind = layout.kind;
        let image = layout.image;
        let end = bounds::region_end(kind, image, file.len());
        listing::scan(file, order, end, wanted)
    } else {
        Ok((
            0,
            Span {
                start: 0,
                size: 0,
                code: 0,
            },
        ))
    }
}

// The outline of a file that rules 1 to 12 pass.
fn outline_checked(file: &[u8], layout: Layout, wanted: usize) -> Result<Outline, Refusal>
    requires { checked_of file.now ≡ Ok layout }
    ensures { result ≡ outline_of wanted file.now }
{
    let (count, span) = scan_in(file, layout, wanted)?;
    Ok(Outline {
        layout,
        count,
        span,
    })
}

// Rules 1 to 12 of a file of `len` bytes, of which `file` has the header or, where there are fewer, all; where it is the
// `whole` file, the other rules too, with the extension that is wanted. The piece reader and the calls on a whole file come
// here both, so that the compiler puts rules 1 to 12 into this one place, and none of them pays for a call.
pub fn outline_in(file: &[u8], len: usize, whole: bool, wanted: usize) -> Result<Outline, Refusal>
    requires { (min len 348 ≤ length file.now) × (whole ≡ true → len ≡ length file.now) }
    ensures { result ≡ outline_in file.now len whole wanted }
{
    let layout = layout::check_in(file, len)?;
    if whole {
        return outline_checked(file, layout, wanted);
    }
    Ok(Outline {
        layout,
        count: 0,
        span: Span {
            start: 0,
            size: 0,
            code: 0,
        },
    })
}

// Rules 1 to 15 of a file, with the extension that is wanted.
pub fn outline_of(file: &[u8], wanted: usize) -> Result<Outline, Refusal>
    ensures { result ≡ outline_of wanted file.now }
{
    outline_in(file, file.len(), true, wanted)
}
