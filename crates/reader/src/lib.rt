// The reader: a file's verdict by rules 1 to 15, and its record (01-scope.md, "Refusal numbers", "Extensions").
#![tactic(auto)]

ghost use Rattle.std.specs.Prelude.{◌≡◌, Ok};
ghost use Rattle.extension.specs.Listing.{listing_of};
ghost use Rattle.layout.specs.File.{checked_of};
ghost use Rattle.rules.specs.Rules.{shape_of_record, aligned_in, completed, Measured};
ghost use Rattle.layout.specs.File.{shape_in};
ghost use Rattle.reader.specs.Reading.{extensions_of, refused_with, accepted_with, reading_of};

use extension::{LIMIT, Listing, Span};
use field::Order;
use header::{Header, Kind};
use layout::Layout;
use refusal::Refusal;
use rules::Image;

// What reading a file answers. Beside a refusal the record and the image are all zero.
#[derive(Clone, Copy)]
pub struct Reading {
    pub verdict: Result<(), Refusal>,
    pub header: Header,
    pub image: Image,
}

// The extensions of a file that rules 1 to 12 pass.
pub fn list_in(file: &[u8], layout: Layout) -> Listing
    ensures { result ≡ listing_of (extensions_of layout file.now) }
{
    if layout::has_extensions(file) {
        let end = bounds::region_end(layout.kind, layout.image, file.len());
        listing::list(file, layout.order, end)
    } else {
        Listing {
            verdict: Ok(()),
            count: 0,
            spans: listing::no_spans(),
        }
    }
}

// The reading of a refused file.
pub fn refused(r: Refusal) -> Reading
    ensures { result ≡ refused_with r }
{
    let none = [0u8; 0];
    Reading {
        verdict: Err(r),
        header: header::parse(&none, Order::Little, Kind::Single, 0, listing::no_spans()),
        image: Image {
            offset: 0,
            bytes: 0,
        },
    }
}

// A record with its sizes, once its dims, datatype and bitpix are judged, and with what the reading of its offset said.
fn complete(header: Header, aligned: bool) -> Header
    requires measured { Measured (shape_of_record header) }
    requires header_value { aligned_in (shape_of_record header) ≡ aligned }
    ensures { result ≡ completed header }
{
    Header {
        sizes: sizes::sizes_in(header.dim, header.intent.bitpix),
        aligned,
        ..header
    }
}

// The reading of an accepted file with this layout and these extensions.
pub fn accepted(file: &[u8], layout: Layout, count: usize, spans: [Span; LIMIT]) -> Reading
    requires measured { Measured (shape_in layout.order layout.kind file.now) }
    requires file_value { aligned_in (shape_in layout.order layout.kind file.now) ≡ layout.aligned }
    ensures { result ≡ accepted_with file.now layout count spans }
{
    Reading {
        verdict: Ok(()),
        header: complete(
            header::parse(file, layout.order, layout.kind, count, spans),
            layout.aligned,
        ),
        image: layout.image,
    }
}

// The reading of a file that rules 1 to 12 pass.
fn read_list(file: &[u8], layout: Layout) -> Reading
    requires { checked_of file.now ≡ Ok layout }
    ensures { result ≡ reading_of file.now }
{
    let listing = list_in(file, layout);
    match listing.verdict {
        Err(r) => refused(r),
        Ok(()) => accepted(file, layout, listing.count, listing.spans),
    }
}

// The record of a file, or its refusal.
pub fn read(file: &[u8]) -> Reading
    ensures { result ≡ reading_of file.now }
{
    match layout::check(file) {
        Err(r) => refused(r),
        Ok(layout) => read_list(file, layout),
    }
}
