// Moving bytes within a lent buffer: what the in-place edits of extensions are made of (01-scope.md, "Extensions").
// Each function says what the whole buffer holds afterwards: `put l at e`, the old bytes l with e in place of as many
// from `at`.
#![tactic(auto)]

ghost use Rattle.std.specs.Prelude.{◌≡◌, ◌++◌, ◌+◌, ◌-◌, ◌≤◌, length, take, drop, replicate};
ghost use Rattle.buffer.specs.Put.{put};

// How many bytes a slide moves at a time; `slide_block` requires at most as many.
const BLOCK: usize = 16384;

// The bytes of src into buf from `at`. A loop, of which the compiler makes better code for a short constant length than of
// the library's copy.
pub fn copy_in(buf: &mut [u8], at: usize, src: &[u8])
    requires { at + length src.now ≤ length buf.old }
    ensures { buf.new ≡ put buf.old at src.now }
{
    for j in 0..src.len() {
        buf[at + j] = src[j];
    }
}

// n zeros into buf from `at`.
pub fn clear(buf: &mut [u8], at: usize, n: usize)
    requires { at + n ≤ length buf.old }
    ensures { buf.new ≡ put buf.old at (replicate n 0) }
{
    buf[at..at + n].fill(0);
}

// At most a block of n bytes from `from` to `to`, whether or not the two places overlap. The bytes go by way of a local
// array; the compiler makes one memmove of the two copies, and no array.
fn slide_block(buf: &mut [u8], from: usize, to: usize, n: usize)
    requires { (n ≤ 16384) × ((from + n ≤ length buf.old) × (to + n ≤ length buf.old)) }
    ensures { buf.new ≡ put buf.old to (take n (drop from buf.old)) }
{
    let mut block = [0u8; BLOCK];
    copy_in(&mut block, 0, &buf[from..from + n]);
    copy_in(buf, to, &block[..n]);
}

// The n bytes from `from` to a place `to` above it, the last block first, so that no byte is written over before it has
// moved.
fn slide_up(buf: &mut [u8], from: usize, to: usize, n: usize)
    requires { (from ≤ to) × (to + n ≤ length buf.old) }
    ensures { buf.new ≡ put buf.old to (take n (drop from buf.old)) }
{
    let mut left = n;
    while BLOCK <= left {
        left -= BLOCK;
        slide_block(buf, from + left, to + left, BLOCK);
    }
    slide_block(buf, from, to, left);
}

// The n bytes from `from` to a place `to` below it, the first block first.
fn slide_down(buf: &mut [u8], from: usize, to: usize, n: usize)
    requires { (to ≤ from) × (from + n ≤ length buf.old) }
    ensures { buf.new ≡ put buf.old to (take n (drop from buf.old)) }
{
    let mut source = from;
    let mut target = to;
    let mut left = n;
    while BLOCK <= left {
        slide_block(buf, source, target, BLOCK);
        source += BLOCK;
        target += BLOCK;
        left -= BLOCK;
    }
    slide_block(buf, source, target, left);
}

// The n bytes from `from` to `to`, either way.
pub fn slide(buf: &mut [u8], from: usize, to: usize, n: usize)
    requires { (from + n ≤ length buf.old) × (to + n ≤ length buf.old) }
    ensures { buf.new ≡ put buf.old to (take n (drop from buf.old)) }
{
    if from < to {
        slide_up(buf, from, to, n);
    } else if to < from {
        slide_down(buf, from, to, n);
    }
}

// Room for `new` bytes where `old` bytes stand at `at` in a file of len bytes: what follows them slides along, and
// where the file shrinks, "the freed bytes become zero". The `new` bytes themselves are the caller's to write.
pub fn make_room(buf: &mut [u8], len: usize, at: usize, old: usize, new: usize)
    requires { (at + old ≤ len) × ((len ≤ length buf.old) × (len + new ≤ length buf.old + old)) }
    ensures { buf.new ≡ put buf.old (at + new)
        (take (len - (at + old)) (drop (at + old) buf.old) ++ replicate (old - new) 0) }
{
    let from = at + old;
    let to = at + new;
    let tail = len - from;
    slide(buf, from, to, tail);
    if new < old {
        clear(buf, to + tail, old - new);
    }
}
