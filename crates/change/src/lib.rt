// What an edit of the extension list is, over numbers alone: what rules 18 to 21 ask, where extensions go out and how
// many bytes come in (01-scope.md, "Extensions" and "Refusal numbers"). No file is read here.
#![tactic(auto)]

ghost use Rattle.std.specs.Prelude.{◌≡◌, min};
ghost use Rattle.change.specs.Change.{size_for, missing_in, offers_negative, enters_bytes, too_many, named_by, slot_at};
ghost use Rattle.change.specs.Change.{slot_of, new_size, size_cap};

use extension::{FIRST, LIMIT, Span};

// Sizes above this are not told apart: rule 21 refuses them all.
const CAP: usize = 134_217_744;

// Which edit: after the last extension, in the place of a numbered one (the first is 0), or taking that one out.
#[derive(Clone, Copy)]
pub enum Change {
    Append,
    Replace(usize),
    Remove(usize),
}

// Where extensions go out, and how many bytes.
#[derive(Clone, Copy)]
pub struct Slot {
    pub at: usize,
    pub old: usize,
}

// Rule 18, in a list of `count`.
pub fn is_missing(change: Change, count: usize) -> bool
    ensures { result ≡ missing_in change count }
{
    match change {
        Change::Append => false,
        Change::Replace(k) => !(k < count),
        Change::Remove(k) => !(k < count),
    }
}

// Rule 19.
pub fn offers_negative(change: Change, code: i32) -> bool
    ensures { result ≡ offers_negative change code }
{
    match change {
        Change::Append => code < 0,
        Change::Replace(_) => code < 0,
        Change::Remove(_) => false,
    }
}

// Rule 20. An accepted file has no extensions exactly where its extender is zero.
pub fn enters_bytes(change: Change, count: usize, end: usize) -> bool
    ensures { result ≡ enters_bytes change count end }
{
    match change {
        Change::Append => (count == 0) & (FIRST < end),
        Change::Replace(_) => false,
        Change::Remove(_) => false,
    }
}

// Rule 21's 65 extensions.
pub fn is_too_many(change: Change, count: usize) -> bool
    ensures { result ≡ too_many change count }
{
    match change {
        Change::Append => LIMIT <= count,
        Change::Replace(_) => false,
        Change::Remove(_) => false,
    }
}

// The number of the extension that an edit names; an append names none.
pub fn number_of(change: Change) -> usize
    ensures { result ≡ named_by change }
{
    match change {
        Change::Append => 0,
        Change::Replace(k) => k,
        Change::Remove(k) => k,
    }
}

// Where an extension is.
fn slot_at(span: Span) -> Slot
    ensures { result ≡ slot_at span }
{
    Slot {
        at: span.start,
        old: span.size.cast_unsigned() as usize,
    }
}

// Where extensions go out, in a list that ends at `end`; `span` is the one that the edit names.
pub fn slot_for(change: Change, span: Span, end: usize) -> Slot
    ensures { result ≡ slot_of change span end }
{
    match change {
        Change::Append => Slot { at: end, old: 0 },
        Change::Replace(_) => slot_at(span),
        Change::Remove(_) => slot_at(span),
    }
}

// The bytes of an extension with a payload of n bytes, as far as they are told apart.
pub fn size_for(n: usize) -> usize
    ensures { result ≡ min (size_for n) size_cap }
{
    if offset::LIMIT < n as u64 {
        CAP
    } else {
        (n + 23) / 16 * 16
    }
}

// How many bytes come in.
pub fn new_size(change: Change, n: usize) -> usize
    ensures { result ≡ min (new_size change n) size_cap }
{
    match change {
        Change::Append => size_for(n),
        Change::Replace(_) => size_for(n),
        Change::Remove(_) => 0,
    }
}
