// Editing a file's extensions in place: append, replace and remove, in a single file or a pair's header file (demand 3;
// 01-scope.md, "Extensions", rules 18 to 22 and 24). An edit is judged whole before the first byte is stored; then one
// function carries out all three.
#![tactic(auto)]

ghost use Rattle.std.specs.Prelude.{◌≡◌, [], ◌≤◌, pos, length, take, Ok};
ghost use Rattle.buffer.specs.Settled.{settled};
ghost use Rattle.edit_plan.specs.Fresh.{fresh_of};
ghost use Rattle.edit_plan.specs.Planned.{planned_of};
ghost use Rattle.edit.specs.Outcome.{outcome_of, edit_answer, buffer_after};

use change::Change;
use edit_plan::Plan;
use extension::FIRST;
use refusal::{Refusal, Rule};

// What is known of the file after an edit: its length, and whether its voxel offset is aligned (02-change-requests.md, P6).
#[derive(Clone, Copy)]
pub struct NewFile {
    pub length: usize,
    pub aligned: bool,
}

// The edit itself, of a file of len bytes; the new length.
fn splice(
    buf: &mut [u8],
    len: usize,
    change: Change,
    code: i32,
    payload: &[u8],
    plan: Plan,
) -> usize
    requires { (len ≤ length buf.old)
        × (planned_of (take len buf.old) (length buf.old) change code payload.now ≡ Ok plan) }
    ensures answer { result ≡ length (fresh_of (take len buf.old) change code payload.now) }
    ensures content { buf.new
        ≡ settled buf.old len (fresh_of (take len buf.old) change code payload.now) }
{
    let whole = len.max(FIRST);
    buffer::make_room(buf, whole, plan.at, plan.old, plan.new);
    edit_store::put_new(buf, plan.at, plan.order, change, code, payload);
    edit_store::put_extender(buf, len, plan.end);
    edit_store::put_offset(buf, plan.kind, plan.order, plan.end);
    whole - plan.old + plan.new
}

// Any of the three edits, of the file in the first len bytes. A removal reads neither code nor payload.
pub fn apply(
    buf: &mut [u8],
    len: usize,
    change: Change,
    code: i32,
    payload: &[u8],
) -> Result<NewFile, Refusal>
    ensures answer { result ≡ edit_answer (outcome_of buf.old len change code payload.now) }
    ensures content { buf.new
        ≡ buffer_after buf.old len (outcome_of buf.old len change code payload.now) }
{
    if buf.len() < len {
        return Err(Rule::LengthAboveBuffer.at(0));
    }
    let room = buf.len();
    let plan = edit_plan::plan_edit(&buf[..len], room, change, code, payload)?;
    let length = splice(buf, len, change, code, payload, plan);
    Ok(NewFile {
        length,
        aligned: plan.aligned,
    })
}

// An extension after the last one.
pub fn append(buf: &mut [u8], len: usize, code: i32, payload: &[u8]) -> Result<NewFile, Refusal>
    ensures answer { result ≡ edit_answer (outcome_of buf.old len Change.Append code payload.now) }
    ensures content { buf.new
        ≡ buffer_after buf.old len
        (outcome_of buf.old len Change.Append code payload.now) }
{
    apply(buf, len, Change::Append, code, payload)
}

// An extension in the place of a numbered one.
pub fn replace(
    buf: &mut [u8],
    len: usize,
    number: usize,
    code: i32,
    payload: &[u8],
) -> Result<NewFile, Refusal>
    ensures answer { result ≡ edit_answer (outcome_of buf.old len (Change.Replace number) code payload.now) }
    ensures content { buf.new
        ≡ buffer_after buf.old len
        (outcome_of buf.old len (Change.Replace number) code payload.now) }
{
    apply(buf, len, Change::Replace(number), code, payload)
}

// A numbered extension taken out.
pub fn remove(buf: &mut [u8], len: usize, number: usize) -> Result<NewFile, Refusal>
    ensures answer { result ≡ edit_answer (outcome_of buf.old len (Change.Remove number) (pos 0) []) }
    ensures content { buf.new
        ≡ buffer_after buf.old len
        (outcome_of buf.old len (Change.Remove number) (pos 0) []) }
{
    apply(buf, len, Change::Remove(number), 0, &[])
}
