// The reading of a file that comes in pieces (02-change-requests.md, P1): "However the file is cut, its answer is that of
// the whole-file reader on the joined bytes, place included." Rules 1 to 12 are judged by the first 352 bytes and the
// length, and rules 13 to 15 by what stands where the walk has come to. Any state gets an answer.
#![tactic(auto)]

ghost use Rattle.std.specs.Prelude.{◌≡◌, ◌≤◌, length, take};
ghost use Rattle.extension.specs.Walk.{extension_limit, first_place};
ghost use Rattle.extension.specs.Listing.{spans_of};
ghost use Rattle.rules.specs.Rules.{aligned_in, Measured};
ghost use Rattle.layout.specs.File.{shape_in};
ghost use Rattle.piece_walk.specs.Marks.{spans_by};
ghost use Rattle.piece_reader.specs.Answer.{listed_by, answer_of};

use extension::{FIRST, LIMIT, Span, Walker};
use layout::Layout;
use piece_walk::{Mark, Walk};
use pieces::Pieces;
use reader::Reading;

// The spans that the first `count` marks say, each where the one before it ends.
fn spans_in(marks: [Mark; LIMIT], count: usize) -> [Span; LIMIT]
    requires { count ≤ extension_limit }
    ensures { result ≡ spans_of (spans_by first_place (take count marks)) }
{
    let mut spans = listing::no_spans();
    let mut start = FIRST;
    for i in 0..count {
        let Mark { size, code } = marks[i];
        spans[i] = Span { start, size, code };
        start += number::natural32(size);
    }
    spans
}

// Rules 13 to 15 of what stands where the walk has come to, now that the length is known; where they pass, the record.
#[tactic(auto, unfolding(crate::specs::Answer::listed_by))]
fn listed(front: &[u8], layout: Layout, taken: usize, walk: Walk) -> Reading
    requires in_bounds { 348 ≤ length front.now }
    requires measured { Measured (shape_in layout.order layout.kind front.now) }
    requires front_value { aligned_in (shape_in layout.order layout.kind front.now) ≡ layout.aligned }
    ensures { result ≡ listed_by front.now layout taken walk }
{
    if !layout::has_extensions(front) {
        return reader::accepted(front, layout, 0, listing::no_spans());
    }
    let walker = Walker {
        order: layout.order,
        end: pieces::end_in(front, layout.order),
        at: walk.at,
        count: walk.count,
    };
    let count = walk.count.min(LIMIT);
    match piece_walk::step_by(walker, walk.coming, taken) {
        Err(r) => reader::refused(r),
        Ok(_) => reader::accepted(front, layout, count, spans_in(walk.marks, count)),
    }
}

// The reading of the bytes so far. The state may be fed on.
#[tactic(auto, unfolding(crate::specs::Answer::answer_of))]
pub fn answer(pieces: Pieces) -> Reading
    ensures { result ≡ answer_of pieces }
{
    match outline::outline_in(&pieces.front, pieces.taken, false, 0) {
        Err(r) => reader::refused(r),
        Ok(outline) => listed(&pieces.front, outline.layout, pieces.taken, pieces.walk),
    }
}
