// A file's extensions: a walker that moves on one extension at a time (01-scope.md, "Extensions", rules 13, 14 and 15).
// Payload bytes are not read. The crate listing lists them all.
#![tactic(auto)]

ghost use Rattle.std.specs.Prelude.{◌≡◌, ◌+◌, ◌<◌, ◌≤◌, length, Err};
ghost use Rattle.refusal.specs.Table.{refusal};
ghost use Rattle.extension.specs.Walk.{size_rule, found_by, found, step_from, step_of, first_place};

use field::{Number, Order};
use refusal::{Refusal, Rule};

// The most extensions a file may have, and where the first one begins.
pub const LIMIT: usize = 64;

pub const FIRST: usize = 352;

// An extension: where it starts, its size with the 8 bytes of size and code, and its code.
#[repr(C)]
#[derive(Clone, Copy)]
pub struct Span {
    pub start: usize,
    pub size: i32,
    pub code: i32,
}

// A place in a region of extensions that ends at `end`, and how many came before it.
#[derive(Clone, Copy)]
pub struct Walker {
    pub order: Order,
    pub end: usize,
    pub at: usize,
    pub count: usize,
}

// A file's extensions: the first `count` spans, and zeros past them.
#[derive(Clone, Copy)]
pub struct Listing {
    pub verdict: Result<(), Refusal>,
    pub count: usize,
    pub spans: [Span; LIMIT],
}

// Whether a size keeps the size rule with `left` bytes left.
fn size_rule(size: i32, left: usize) -> bool
    ensures { result ≡ size_rule size left }
{
    if left < 16 {
        return false;
    }
    if size <= 0 {
        return false;
    }
    let n = size as usize;
    if n % 16 != 0 {
        return false;
    }
    n <= left
}

impl Walker {
    // The state before the first extension of a region that ends at `end`.
    pub fn new(order: Order, end: usize) -> Self
        ensures { (result.order ≡ order) × (result.end ≡ end) × (result.at ≡ first_place) × (result.count ≡ 0) }
    {
        Self {
            order,
            end,
            at: FIRST,
            count: 0,
        }
    }

    // A step where n bytes are left of the region, with the size and the code that they begin with: the three refusals
    // in the order in which they are tried.
    pub fn step_by(self, n: usize, size: i32, code: i32) -> Result<Option<(Span, Walker)>, Refusal>
        requires { self.at + n < 18446744073709551616 }
        ensures { result ≡ step_from self (found_by self.count self.at n size code) }
    {
        let order = self.order;
        let at = self.at;
        let count = self.count;
        if n == 0 {
            if count == 0 {
                return Err(Rule::WrongSize.at(self.at));
            }
            return Ok(None);
        }
        let sized = size_rule(size, n);
        if LIMIT <= count {
            return Err(Rule::TooManyExtensions.at(at));
        }
        if !sized {
            return Err(Rule::WrongSize.at(at));
        }
        if code < 0 {
            return Err(Rule::NegativeCode.at(at + 4));
        }
        let past = at + size as usize;
        let span = Span {
            start: at,
            size,
            code,
        };
        let next = Walker {
            order,
            end: self.end,
            at: past,
            count: count + 1,
        };
        Ok(Some((span, next)))
    }

    // A step where `rest` is what is left of the region.
    fn step_over(self, rest: &[u8]) -> Result<Option<(Span, Walker)>, Refusal>
        requires { self.at + length rest.now < 18446744073709551616 }
        ensures { result ≡ step_from self (found self.order self.count self.at rest.now) }
    {
        // Fewer than 16 bytes break the size rule, whatever size they begin with.
        if rest.len() < 16 {
            return self.step_by(rest.len(), 0, 0);
        }
        let order = self.order;
        let size = i32::read(rest, 0, order);
        let code = i32::read(rest, 4, order);
        self.step_by(rest.len(), size, code)
    }

    // The next extension of a file that has the whole region, with a state inside it.
    pub fn step_within(self, file: &[u8]) -> Result<Option<(Span, Walker)>, Refusal>
        requires { (self.at ≤ self.end) × (self.end ≤ length file.now) }
        ensures { result ≡ step_of file.now self }
    {
        let end = self.end;
        let at = self.at;
        self.step_over(&file[at..end])
    }

    // The next extension of a file, with the state after it. Any state will do: past the region's end nothing is left.
    pub fn step(self, file: &[u8]) -> Result<Option<(Span, Walker)>, Refusal>
        ensures { result ≡ step_of file.now self }
    {
        let stop = self.end.min(file.len());
        let from = self.at.min(stop);
        self.step_over(&file[from..stop])
    }
}
