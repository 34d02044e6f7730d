// Numbers of one, two and four bytes in a file's byte order, read from a slice (source document 003 for the widths). A
// number is read where all its bytes are, and no place is tested; of a byte, and of bytes that are copied out, those past
// the end are 0.
#![tactic(auto)]

ghost use Rattle.std.specs.Prelude.{◌≡◌, ◌+◌, ◌*◌, ◌<◌, ◌≤◌, ℕ, List, pos, length, get_or};
ghost use Rattle.std.specs.Int.{w16, w32, cast_unsigned};
ghost use Rattle.field.specs.declared.Order.{Order};
ghost use Rattle.field.specs.Numbers.{tabulate, u16_at, u32_at, i16_at, i32_at, bytes_at, bytes_of, padded};

// The byte order of a file's numbers.
#[derive(Clone, Copy)]
pub enum Order {
    Little,
    Big,
}

// A number of a file, of WIDTH bytes: `number_at` is what is stored at a place, and `number_bits` are its own bits. Past the end
// of a list it is `number_zero`.
pub trait Number: Copy + Default {
    const WIDTH: usize;

    ghost WIDTH: { ℕ };

    ghost number_at: { Order → List ℕ → ℕ → Self };

    ghost number_bits: { Self → ℕ };

    ghost number_zero: { Self };

    fn read(s: &[u8], at: usize, order: Order) -> Self
        requires { at + WIDTH ≤ length s.now }
        ensures { result ≡ number_at order s.now at };

    fn zero() -> Self
        ensures { result ≡ number_zero };

    // The number's own bytes come first.
    fn bytes(self, order: Order) -> [u8; 4]
        ensures { padded WIDTH result ≡ bytes_of order WIDTH (number_bits self) };
}

// The byte at a place.
pub fn byte_at(s: &[u8], at: usize) -> u8
    ensures { result ≡ get_or s.now at 0 }
{
    if at < s.len() { s[at] } else { 0 }
}

impl Number for u16 {
    const WIDTH: usize = 2;

    ghost WIDTH = { 2 };

    ghost number_at = { u16_at };

    ghost number_bits = { λ n. n };

    ghost number_zero = { 0 };

    fn zero() -> u16 {
        0
    }

    #[tactic(auto, unfolding(crate::specs::Numbers::u16_at))]
    fn read(s: &[u8], at: usize, order: Order) -> u16 {
        let bytes = [s[at], s[at + 1]];
        match order {
            Order::Little => u16::from_le_bytes(bytes),
            Order::Big => u16::from_be_bytes(bytes),
        }
    }

    #[tactic(auto, unfolding(crate::specs::Numbers::bytes_of, crate::specs::Numbers::padded))]
    fn bytes(self, order: Order) -> [u8; 4] {
        let [a, b] = match order {
            Order::Little => self.to_le_bytes(),
            Order::Big => self.to_be_bytes(),
        };
        [a, b, 0, 0]
    }
}

impl Number for u32 {
    const WIDTH: usize = 4;

    ghost WIDTH = { 4 };

    ghost number_at = { u32_at };

    ghost number_bits = { λ n. n };

    ghost number_zero = { 0 };

    fn zero() -> u32 {
        0
    }

    #[tactic(auto, unfolding(crate::specs::Numbers::u32_at))]
    fn read(s: &[u8], at: usize, order: Order) -> u32 {
        let bytes = [s[at], s[at + 1], s[at + 2], s[at + 3]];
        match order {
            Order::Little => u32::from_le_bytes(bytes),
            Order::Big => u32::from_be_bytes(bytes),
        }
    }

    #[tactic(auto, unfolding(crate::specs::Numbers::bytes_of, crate::specs::Numbers::padded))]
    fn bytes(self, order: Order) -> [u8; 4] {
        match order {
            Order::Little => self.to_le_bytes(),
            Order::Big => self.to_be_bytes(),
        }
    }
}

// A signed number is the unsigned one of its bits, in two's complement.
impl Number for i16 {
    const WIDTH: usize = 2;

    ghost WIDTH = { 2 };

    ghost number_at = { i16_at };

    ghost number_bits = { cast_unsigned w16 };

    ghost number_zero = { pos 0 };

    fn zero() -> i16 {
        0
    }

    fn read(s: &[u8], at: usize, order: Order) -> i16 {
        u16::read(s, at, order).cast_signed()
    }

    fn bytes(self, order: Order) -> [u8; 4] {
        self.cast_unsigned().bytes(order)
    }
}

impl Number for i32 {
    const WIDTH: usize = 4;

    ghost WIDTH = { 4 };

    ghost number_at = { i32_at };

    ghost number_bits = { cast_unsigned w32 };

    ghost number_zero = { pos 0 };

    fn zero() -> i32 {
        0
    }

    fn read(s: &[u8], at: usize, order: Order) -> i32 {
        u32::read(s, at, order).cast_signed()
    }

    fn bytes(self, order: Order) -> [u8; 4] {
        self.cast_unsigned().bytes(order)
    }
}

// Fills `out` with the numbers from a place on, one after the other.
pub fn numbers_out<T: Number>(s: &[u8], at: usize, order: Order, out: &mut [T])
    requires { at + length out.old * T.WIDTH ≤ length s.now }
    ensures { out.new ≡ tabulate (λ i. T.number_at order s.now (at + i * T.WIDTH)) (length out.old) }
{
    for (i, n) in out.iter_mut().enumerate() {
        *n = T::read(s, at + i * T::WIDTH, order);
    }
}

// The numbers of a field that is an array.
pub fn numbers<T: Number, const N: usize>(s: &[u8], at: usize, order: Order) -> [T; N]
    requires { at + N * T.WIDTH ≤ length s.now }
    ensures { result ≡ tabulate (λ i. T.number_at order s.now (at + i * T.WIDTH)) N }
{
    let mut out = [T::default(); N];
    numbers_out(s, at, order, &mut out);
    out
}

// Fills `out` with the bytes from a place, with zeros where the slice ends before.
#[tactic(auto, using(crate::proofs::Tabulate::part_copied))]
pub fn copy_out(s: &[u8], at: usize, out: &mut [u8])
    requires { at + length out.old < 4294967296 }
    ensures { out.new ≡ bytes_at at (length out.old) s.now }
{
    let end = at + out.len();
    if end <= s.len() {
        out.copy_from_slice(&s[at..end]);
    } else {
        pad_out(s, at, out);
    }
}

#[tactic(auto, using(crate::proofs::Tabulate::tabulate_turn))]
fn pad_out(s: &[u8], at: usize, out: &mut [u8])
    requires { at + length out.old < 4294967296 }
    ensures { out.new ≡ bytes_at at (length out.old) s.now }
{
    for (i, b) in out.iter_mut().enumerate() {
        *b = byte_at(s, at + i);
    }
}
