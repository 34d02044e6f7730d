// Whether an edit of the extensions is refused, and the numbers that it is carried out by (01-scope.md, "Extensions",
// rules 18 to 22). Nothing is stored here: an edit is judged whole before its first byte is.
#![tactic(auto)]

ghost use Rattle.std.specs.Prelude.{◌≡◌, Ok, Err};
ghost use Rattle.refusal.specs.Table.{refusal};
ghost use Rattle.outline.specs.Outline.{outline_of};
ghost use Rattle.change.specs.Change.{named_by};
ghost use Rattle.edit_plan.specs.Planned.{planned_of, aligned_after};

use change::Change;
use extension::FIRST;
use field::Order;
use header::Kind;
use outline::Outline;
use refusal::{Refusal, Rule};

// What an edit is carried out by: at the place `at`, `old` bytes go out and `new` bytes come in, and the region of the
// extensions then ends at `end`. `aligned` is said of the new file's voxel offset (02-change-requests.md, P6).
#[derive(Clone, Copy)]
pub struct Plan {
    pub order: Order,
    pub kind: Kind,
    pub at: usize,
    pub old: usize,
    pub new: usize,
    pub end: usize,
    pub aligned: bool,
}

// Whether the new file's voxel offset is aligned. A single file's is 352 plus a multiple of 16; a pair's stays as it was.
fn aligned_after(kind: Kind, aligned: bool) -> bool
    ensures { result ≡ aligned_after kind aligned }
{
    match kind {
        Kind::Single => true,
        Kind::Pair => aligned,
    }
}

// Rules 18 to 22, of a file that reading accepts. A header file of 348 bytes has no extender, and an edit gives it one:
// its region ends at 352 at the least.
fn plan_list(
    file: &[u8],
    outline: Outline,
    room: usize,
    change: Change,
    code: i32,
    payload: &[u8],
) -> Result<Plan, Refusal>
    requires { outline_of (named_by change) file.now ≡ Ok outline }
    ensures { result ≡ planned_of file.now room change code payload.now }
{
    let layout = outline.layout;
    let count = outline.count;
    let end = bounds::region_end(layout.kind, layout.image, file.len()).max(FIRST);
    if change::is_missing(change, count) {
        return Err(Rule::NoSuchExtension.at(0));
    }
    if change::offers_negative(change, code) {
        return Err(Rule::NegativeCodeOffered.at(0));
    }
    if change::enters_bytes(change, count, end) {
        return Err(Rule::PrivateBytes.at(0));
    }
    let out = change::slot_for(change, outline.span, end);
    let new = change::new_size(change, payload.len());
    let next = end - out.old + new;
    if change::is_too_many(change, count) | (offset::LIMIT < next as u64) {
        return Err(Rule::ListTooLong.at(0));
    }
    if room < file.len().max(FIRST) - out.old + new {
        return Err(Rule::ShortBuffer.at(0));
    }
    Ok(Plan {
        order: layout.order,
        kind: layout.kind,
        at: out.at,
        old: out.old,
        new,
        end: next,
        aligned: aligned_after(layout.kind, layout.aligned),
    })
}

// Reading's rules, and then those of the edit. Of the extensions only the one that the edit names is asked for.
pub fn plan_edit(
    file: &[u8],
    room: usize,
    change: Change,
    code: i32,
    payload: &[u8],
) -> Result<Plan, Refusal>
    ensures { result ≡ planned_of file.now room change code payload.now }
{
    let outline = outline::outline_of(file, change::number_of(change))?;
    plan_list(file, outline, room, change, code, payload)
}
