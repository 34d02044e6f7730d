// A file that comes in pieces of any length (02-change-requests.md, P1): what is kept of it, and what a piece does to that.
// Kept are its first 352 bytes, size and code of the extensions that have come whole and the first eight bytes of the next
// one; payload and voxels are skipped. The state is a value. The crate piece_reader says what it reads as.
#![tactic(auto)]

ghost use Rattle.std.specs.Prelude.{◌≡◌, ◌+◌, ◌≤◌, length};
ghost use Rattle.layout.specs.File.{order_of};
ghost use Rattle.pieces.specs.Pieces.{passes_total, front_with, end_by, end_in, is_skipped, read_on, fresh, taken_of};

use extension::{FIRST, LIMIT};
use field::{Number, Order};
use header::Kind;
use offset::Offset;
use piece_walk::{Mark, Walk};
use refusal::{Refusal, Rule};

// The most bytes that are taken in all.
const TOTAL: usize = 2199023255552;

// What is kept of a file between two pieces: how many bytes came, the first 352 of them, and the walk over the extensions.
#[repr(C)]
#[derive(Clone, Copy)]
pub struct Pieces {
    pub taken: usize,
    pub front: [u8; 352],
    pub walk: Walk,
}

// Whether a piece would pass the total. No sum is made, so none can wrap.
fn passes_total(taken: usize, len: usize) -> bool
    ensures { result ≡ passes_total taken len }
{
    TOTAL < taken || TOTAL - taken < len
}

// A piece's bytes among the first 352. They are stored in place, for after these nothing is.
fn put_front(front: &mut [u8; 352], taken: usize, piece: &[u8])
    ensures { front.new ≡ front_with front.old taken piece.now }
{
    if taken < 352 {
        let n = (352 - taken).min(piece.len());
        front[taken..taken + n].copy_from_slice(&piece[..n]);
    }
}

// The byte order, by dim[0].
#[tactic(auto, unfolding(layout::specs::File::order_of))]
fn order_of(front: &[u8]) -> Order
    requires { 348 ≤ length front.now }
    ensures { result ≡ order_of front.now }
{
    if layout::holds_in(front, Order::Little) {
        Order::Little
    } else {
        Order::Big
    }
}

// Where a file's extensions end at the latest, by its kind and offset.
fn end_by(kind: Kind, offset: Result<Offset, Refusal>) -> usize
    ensures { result ≡ end_by kind offset }
{
    match kind {
        Kind::Pair => TOTAL,
        Kind::Single => offset::whole_in(offset) as usize,
    }
}

// The same by a file's first bytes: 0 where the extender says that there are none.
#[tactic(auto, unfolding(crate::specs::Pieces::end_in))]
pub fn end_in(front: &[u8], order: Order) -> usize
    requires { 348 ≤ length front.now }
    ensures { result ≡ end_in order front.now }
{
    if !layout::has_extensions(front) {
        return 0;
    }
    end_by(
        layout::kind_of(front),
        offset::decode(u32::read(front, 108, order)),
    )
}

// Whether a piece has payload or voxels alone: the first 352 bytes have come, and it begins behind the region of the
// extensions or ends before the next one.
fn is_skipped(front: &[u8], at: usize, taken: usize, total: usize) -> bool
    requires { 348 ≤ length front.now }
    ensures { result ≡ is_skipped front.now at taken total }
{
    352 <= taken && (end_in(front, order_of(front)) <= taken || total <= at)
}

impl Pieces {
    // The state before the first piece.
    #[tactic(auto, unfolding(crate::specs::Pieces::fresh, piece_walk::specs::Marks::marks_of))]
    pub fn start() -> Self
        ensures { result ≡ fresh }
    {
        Self {
            taken: 0,
            front: [0u8; 352],
            walk: Walk {
                at: FIRST,
                count: 0,
                coming: [0u8; 8],
                marks: [Mark { size: 0, code: 0 }; LIMIT],
            },
        }
    }

    // A piece that is not skipped. The parts of the state are stored one by one, for a copy of it all takes as long as the rest.
    #[tactic(auto, unfolding(crate::specs::Pieces::read_on, crate::specs::Pieces::walk_with))]
    fn read_on(&mut self, piece: &[u8])
        requires { self.old.taken + length piece.now ≤ 2199023255552 }
        ensures { self.new ≡ read_on self.old piece.now }
    {
        put_front(&mut self.front, self.taken, piece);
        let order = order_of(&self.front);
        let end = end_in(&self.front, order);
        self.walk = piece_walk::walk_on(order, end, self.walk, self.taken, piece);
        self.taken += piece.len();
    }

    // Takes a piece; or 25, and the state stays as it was.
    #[tactic(auto, unfolding(crate::specs::Pieces::taken_of, crate::specs::Pieces::taken_with))]
    pub fn take(&mut self, piece: &[u8]) -> Result<(), Refusal>
        ensures answer { result ≡ (taken_of self.old piece.now).verdict }
        ensures state { self.new ≡ (taken_of self.old piece.now).pieces }
    {
        if passes_total(self.taken, piece.len()) {
            return Err(Rule::TooManyBytes.at(0));
        }
        let total = self.taken + piece.len();
        if is_skipped(&self.front, self.walk.at, self.taken, total) {
            self.taken = total;
        } else {
            self.read_on(piece);
        }
        Ok(())
    }
}
