// What the writer stores of its own (01-scope.md: it "writes 348 and the kind's magic"): the header's size at its front,
// and at its end the magic, n+1 of a single file and ni1 of a pair.
#![tactic(auto)]

ghost use Rattle.std.specs.Prelude.{◌≡◌};
ghost use Rattle.std.proofs.lemmas.List.Edits.{sets};
ghost use Rattle.field.specs.Numbers.{bytes_of};
ghost use Rattle.header.specs.Fields.{magic_of};

use field::Order;
use header::Kind;

// The header's size, in a byte order.
pub fn put_size(buf: &mut [u8], order: Order)
    ensures { buf.new ≡ sets buf.old 0 (bytes_of order 4 348) }
{
    store::put(buf, 0, order, 348u32);
}

// The magic of a kind, and a zero byte.
#[tactic(auto, unfolding(field::specs::Numbers::padded))]
pub fn put_magic(buf: &mut [u8], kind: Kind)
    ensures { buf.new ≡ sets buf.old 344 (magic_of kind) }
{
    let text = match kind {
        Kind::Single => b"n+1\0",
        Kind::Pair => b"ni1\0",
    };
    store::put_bytes(buf, 344, text.len(), text);
}
