// The list of a file's extensions, made by walking over them (01-scope.md, "Extensions"; "spans past the count are zeros");
// and, for whoever keeps no list, how many there are and one of them.
#![tactic(auto)]

ghost use Rattle.std.specs.Prelude.{◌≡◌, [], ◌+◌, ◌≤◌, length};
ghost use Rattle.field.specs.Numbers.{i32_at};
ghost use Rattle.extension.specs.Walk.{first_place, span, extensions_in};
ghost use Rattle.extension.specs.Listing.{spans_of, listing_of};
ghost use Rattle.listing.specs.Scan.{scan_of, kept_of};

use extension::{LIMIT, Listing, Span, Walker};
use field::{Number, Order};
use refusal::Refusal;

// The spans of no extensions.
pub fn no_spans() -> [Span; LIMIT]
    ensures { result ≡ spans_of [] }
{
    [Span {
        start: 0,
        size: 0,
        code: 0,
    }; LIMIT]
}

// The spans of all extensions of a file whose region ends at `end`, or the first refusal.
pub fn list(file: &[u8], order: Order, end: usize) -> Listing
    ensures { result ≡ listing_of (extensions_in order end file.now) }
{
    let mut walker = Walker::new(order, end);
    let mut spans = no_spans();
    loop {
        match walker.step(file) {
            Ok(Some((x, next))) => {
                spans[walker.count] = x;
                walker = next;
            }
            Ok(None) => {
                return Listing {
                    verdict: Ok(()),
                    count: walker.count,
                    spans,
                };
            }
            Err(r) => {
                return Listing {
                    verdict: Err(r),
                    count: 0,
                    spans: no_spans(),
                };
            }
        }
    }
}

// The place that is kept after the extension with this number, which starts at `start`.
fn kept(number: usize, wanted: usize, start: usize, place: usize) -> usize
    ensures { result ≡ kept_of number wanted start place }
{
    if number == wanted { start } else { place }
}

// The span of the extension that stands at a place.
fn span_at(file: &[u8], order: Order, place: usize) -> Span
    requires { place + 8 ≤ length file.now }
    ensures { result ≡ span place (i32_at order file.now place) (i32_at order file.now (place + 4)) }
{
    Span {
        start: place,
        size: i32::read(file, place, order),
        code: i32::read(file, place + 4, order),
    }
}

// How many extensions a file has whose region ends at `stop`, and the one that is wanted; or the first refusal. Of the one
// that is wanted only its place is kept on the way: one number, which stays in a register.
pub fn scan(file: &[u8], order: Order, stop: usize, wanted: usize) -> Result<(usize, Span), Refusal>
    requires { (first_place ≤ stop) × (stop ≤ length file.now) }
    ensures { result ≡ scan_of wanted (extensions_in order stop file.now) }
{
    let mut walker = Walker::new(order, stop);
    let mut place = 0;
    while let Some((x, next)) = walker.step_within(file)? {
        place = kept(walker.count, wanted, x.start, place);
        walker = next;
    }
    if wanted < walker.count {
        return Ok((walker.count, span_at(file, order, place)));
    }
    let none = Span {
        start: 0,
        size: 0,
        code: 0,
    };
    Ok((walker.count, none))
}
