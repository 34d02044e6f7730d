// The stores of an edit, each of which writes one part of the fresh file: the stored extension, the extender, and a
// single file's voxel offset (01-scope.md, "Extensions"). What is stored where is planned before (edit_plan).
#![tactic(auto)]

ghost use Rattle.std.specs.Prelude.{◌≡◌, ◌+◌, ◌≤◌, length, set};
ghost use Rattle.field.specs.Numbers.{joined};
ghost use Rattle.offset.specs.Offset.{offset_limit};
ghost use Rattle.extension.specs.Walk.{first_place};
ghost use Rattle.buffer.specs.Put.{put};
ghost use Rattle.change.specs.Change.{size_for};
ghost use Rattle.edit_plan.specs.Fresh.{stored, brought_in, head_for};
ghost use Rattle.edit_store.specs.Stores.{first_byte_at, extender_bytes};

use change::Change;
use extension::FIRST;
use field::Order;
use header::Kind;

// A whole extension at a place.
fn put_extension(buf: &mut [u8], at: usize, order: Order, code: i32, payload: &[u8])
    requires { (at + size_for (length payload.now) ≤ length buf.old)
        × (at + size_for (length payload.now) ≤ offset_limit) }
    ensures { buf.new ≡ put buf.old at (stored order code payload.now) }
{
    let n = payload.len();
    let size = change::size_for(n);
    store::put(buf, at, order, size as u32);
    store::put(buf, at + 4, order, code);
    buffer::copy_in(buf, at + 8, payload);
    buffer::clear(buf, at + 8 + n, size - (n + 8));
}

// What comes in, at its place.
pub fn put_new(buf: &mut [u8], at: usize, order: Order, change: Change, code: i32, payload: &[u8])
    requires { (at + length (joined (brought_in order change code payload.now)) ≤ length buf.old)
        × (at + length (joined (brought_in order change code payload.now)) ≤ offset_limit) }
    ensures { buf.new ≡ put buf.old at (joined (brought_in order change code payload.now)) }
{
    match change {
        Change::Append | Change::Replace(_) => put_extension(buf, at, order, code, payload),
        Change::Remove(_) => {}
    }
}

// The extender's first byte: whether the list, whose region is to end at `end`, has an extension.
fn put_first(buf: &mut [u8], end: usize)
    ensures { buf.new ≡ set buf.old 348 (first_byte_at end) }
{
    store::put_byte(buf, 348, (FIRST < end) as u8);
}

// The extender of a file of len bytes, whose region is to end at `end`. Its three reserved bytes stay; a header file of
// 348 bytes has none yet, and gains zeros.
pub fn put_extender(buf: &mut [u8], len: usize, end: usize)
    requires { first_place ≤ length buf.old }
    ensures { buf.new ≡ put buf.old 348 (extender_bytes len end buf.old) }
{
    if len < FIRST {
        buffer::clear(buf, 349, 3);
    }
    put_first(buf, end);
}

// vox_offset, which only a single file's edit sets.
pub fn put_offset(buf: &mut [u8], kind: Kind, order: Order, end: usize)
    requires { (first_place ≤ length buf.old) × (end ≤ offset_limit) }
    ensures { buf.new ≡ head_for kind order end buf.old }
{
    match kind {
        Kind::Single => store::put(buf, 108, order, offset::encode(end as u32)),
        Kind::Pair => {}
    }
}
