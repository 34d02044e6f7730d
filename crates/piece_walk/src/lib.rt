// The walk over a file's extensions where the file comes in pieces (02-change-requests.md, P1): how far the bytes so far
// take it. It passes an extension when that has come whole, and not before. Payload bytes are not read, and of the
// extension that is coming its first eight are kept.
#![tactic(auto)]

ghost use Rattle.std.specs.Prelude.{◌≡◌, ◌+◌, ◌<◌, length};
ghost use Rattle.piece_walk.specs.Marks.{mark_of};
ghost use Rattle.piece_walk.specs.Window.{window_byte, window};
ghost use Rattle.piece_walk.specs.Walking.{step_by, walked_on};

use extension::{LIMIT, Span, Walker};
use field::{Number, Order};
use refusal::Refusal;

// Of an extension that has come whole, its size and its code. Where it starts, the sizes before it say.
#[repr(C)]
#[derive(Clone, Copy)]
pub struct Mark {
    pub size: i32,
    pub code: i32,
}

impl From<Span> for Mark {
    ghost from_gives = { λ x r. r ≡ mark_of x };

    fn from(x: Span) -> Self {
        Self {
            size: x.size,
            code: x.code,
        }
    }
}

// The walk so far: where it stands, how many extensions it has passed and the marks of these, and the first eight bytes of
// the one that is coming. Those that have not come, and those from the region's end on, are 0.
#[repr(C)]
#[derive(Clone, Copy)]
pub struct Walk {
    pub at: usize,
    pub count: usize,
    pub coming: [u8; 8],
    pub marks: [Mark; LIMIT],
}

// The next step of a walk, where `total` bytes have come and `coming` are the first eight at its place.
#[tactic(auto, unfolding(crate::specs::Walking::step_by))]
pub fn step_by(
    walker: Walker,
    coming: [u8; 8],
    total: usize,
) -> Result<Option<(Span, Walker)>, Refusal>
    ensures { result ≡ step_by walker coming total }
{
    let n = walker.end.min(total).saturating_sub(walker.at);
    let size = i32::read(&coming, 0, walker.order);
    let code = i32::read(&coming, 4, walker.order);
    walker.step_by(n, size, code)
}

// A piece that follows `taken` bytes, and the eight bytes that were kept before it.
#[derive(Clone, Copy)]
struct Piece<'a> {
    old: [u8; 8],
    taken: usize,
    bytes: &'a [u8],
    ghost fits: { taken + length bytes.now < 18446744073709551616 },
}

impl Piece<'_> {
    // A byte of a window: of those before `taken` the old window has it, of the others the piece.
    fn window_byte(&self, at: usize, end: usize, i: usize) -> u8
        requires { i < 8 }
        ensures { result ≡ window_byte at end self.now.taken self.now.old self.now.bytes.now i }
    {
        if end.saturating_sub(at) <= i {
            return 0;
        }
        let place = at + i;
        if place < self.taken {
            self.old[i]
        } else {
            field::byte_at(self.bytes, place - self.taken)
        }
    }

    // The eight bytes from `at` on, once the piece has come. From `end` on they are 0.
    fn window_at(&self, at: usize, end: usize) -> [u8; 8]
        ensures { result ≡ window at end self.now.taken self.now.old self.now.bytes.now }
    {
        let mut out = [0u8; 8];
        for i in 0..8 {
            out[i] = self.window_byte(at, end, i);
        }
        out
    }

    // The next step with the piece. The eight bytes that it has are read where they stand, and those that break the size rule
    // by their number are not read.
    fn step(&self, walker: Walker) -> Result<Option<(Span, Walker)>, Refusal>
        ensures { result ≡ step_by walker (window walker.at walker.end self.now.taken self.now.old self.now.bytes.now)
            (self.now.taken + length self.now.bytes.now) }
    {
        let at = walker.at;
        let total = self.taken + self.bytes.len();
        let n = walker.end.min(total).saturating_sub(at);
        if n < 16 {
            return walker.step_by(n, 0, 0);
        }
        if at < self.taken {
            return step_by(walker, self.window_at(at, walker.end), total);
        }
        let from = at - self.taken;
        let size = i32::read(self.bytes, from, walker.order);
        let code = i32::read(self.bytes, from + 4, walker.order);
        walker.step_by(n, size, code)
    }
}

// The walk over all extensions that have come whole with `piece`, which follows `taken` bytes. The marks are a local here, so
// that each is stored in place.
#[tactic(auto, using(crate::proofs::Passing::step_room))]
pub fn walk_on(order: Order, end: usize, walk: Walk, taken: usize, piece: &[u8]) -> Walk
    requires { taken + length piece.now < 18446744073709551616 }
    ensures { result ≡ walked_on order end walk taken piece.now }
{
    let old = walk.coming;
    let brought = Piece {
        old,
        taken,
        bytes: piece,
    };
    let mut marks = walk.marks;
    let mut walker = Walker {
        order,
        end,
        at: walk.at,
        count: walk.count,
    };
    while let Ok(Some((x, next))) = brought.step(walker) {
        marks[walker.count] = x.into();
        walker = next;
    }
    Walk {
        at: walker.at,
        count: walker.count,
        coming: brought.window_at(walker.at, walker.end),
        marks,
    }
}
