// Stores of bytes, and of numbers of two and four bytes in a byte order, over a slice (source document 003 for the
// widths). They are total: a store past the end does nothing, so that no caller proves a length.
#![tactic(auto)]

ghost use Rattle.std.specs.Prelude.{◌≡◌, ◌+◌, ◌*◌, ◌^◌, ◌<◌, get_or, set};
ghost use Rattle.std.proofs.lemmas.List.Edits.{sets};
ghost use Rattle.field.specs.Numbers.{tabulate, joined, bytes_of, padded};

use field::{Number, Order};

// Stores a byte, where the buffer has that place.
pub fn put_byte(buf: &mut [u8], at: usize, b: u8)
    ensures { buf.new ≡ set buf.old at b }
{
    if at < buf.len() {
        buf[at] = b;
    }
}

// Stores n bytes: the first of src, then zeros.
#[tactic(auto, unfolding(field::specs::Numbers::padded))]
pub fn put_bytes(buf: &mut [u8], at: usize, n: usize, src: &[u8])
    requires { at + n < 2 ^ 64 }
    ensures { buf.new ≡ sets buf.old at (padded n src.now) }
{
    for i in 0..n {
        put_byte(buf, at + i, field::byte_at(src, i));
    }
}

// Stores a number's bytes.
pub fn put<T: Number>(buf: &mut [u8], at: usize, order: Order, n: T)
    requires { at + T.WIDTH < 2 ^ 64 }
    ensures { buf.new ≡ sets buf.old at (bytes_of order T.WIDTH (T.number_bits n)) }
{
    put_bytes(buf, at, T::WIDTH, &n.bytes(order));
}

// A number of a slice, and zero past its end.
fn number_of<T: Number>(src: &[T], i: usize) -> T
    ensures { result ≡ get_or src.now i T.number_zero }
{
    if i < src.len() { src[i] } else { T::zero() }
}

// Stores n numbers, one after the other: the first of src, then zeros.
pub fn put_numbers<T: Number>(buf: &mut [u8], at: usize, order: Order, n: usize, src: &[T])
    requires { at + n * T.WIDTH < 2 ^ 64 }
    ensures { buf.new ≡ sets buf.old at (joined (tabulate (λ i. bytes_of order T.WIDTH (T.number_bits (get_or src.now i T.number_zero))) n)) }
{
    for i in 0..n {
        put(buf, at + i * T::WIDTH, order, number_of(src, i));
    }
}
