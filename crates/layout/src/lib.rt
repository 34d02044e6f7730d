// The layout of a file, by rules 1 to 12: its byte order, its kind and where its image is (01-scope.md, "Refusal
// numbers", "The header rules"). Of a file's bytes the header is enough, with its length beside them. Also what its extender
// says (02-change-requests.md, P2).
#![tactic(auto)]

ghost use Rattle.std.specs.Prelude.{◌≡◌, true, [], ◌∷◌, ℕ, ◌<◌, ◌≤◌, min, length, Ok, Err};
ghost use Rattle.field.specs.declared.Order.TheVariants.{Little};
ghost use Rattle.field.specs.Numbers.{bytes_at, little_value, u32_at};
ghost use Rattle.refusal.specs.Table.{verdict};
ghost use Rattle.number.specs.Same.{same_numbers};
ghost use Rattle.layout.specs.File.{holds_in, order_of, has_magic, kind_of, start_in, shape_in, cut_extender};
ghost use Rattle.layout.specs.File.{has_extensions, end_rows, checked_in, checked_of};

use field::{Number, Order};
use header::Kind;
use refusal::{Refusal, Rule};
use rules::{Image, Shape};

// What rules 1 to 12 leave known; `aligned` is what the reading of the voxel offset said (02-change-requests.md, P6).
#[derive(Clone, Copy)]
pub struct Layout {
    pub order: Order,
    pub kind: Kind,
    pub image: Image,
    pub aligned: bool,
}

// The number of four bytes, the first the least.
fn word_of(a: u8, b: u8, c: u8, d: u8) -> u32
    ensures { result ≡ little_value (a ∷ b ∷ c ∷ d ∷ []) }
{
    a as u32 + 256 * (b as u32 + 256 * (c as u32 + 256 * d as u32))
}

// The number of the four bytes at a place. Past the end there are zeros.
fn word_at(file: &[u8], at: usize) -> u32
    requires { at < 4294967000 }
    ensures { result ≡ u32_at Little file.now at }
{
    if at + 4 <= file.len() {
        return u32::read(file, at, Order::Little);
    }
    let a = field::byte_at(file, at);
    let b = field::byte_at(file, at + 1);
    let c = field::byte_at(file, at + 2);
    let d = field::byte_at(file, at + 3);
    word_of(a, b, c, d)
}

// Whether the four bytes at a place are these: one test, of both as numbers.
fn is_four(file: &[u8], at: usize, a: u8, b: u8, c: u8, d: u8) -> bool
    requires { at < 4294967000 }
    ensures { result ≡ same_numbers (bytes_at at 4 file.now) (a ∷ b ∷ c ∷ d ∷ []) }
{
    word_at(file, at) == word_of(a, b, c, d)
}

// Whether dim[0] is in 1..7 in a byte order.
pub fn holds_in(file: &[u8], order: Order) -> bool
    requires { 348 ≤ length file.now }
    ensures { result ≡ holds_in order file.now }
{
    let n = i16::read(file, 40, order);
    (1 <= n) & (n <= 7)
}

fn has_magic(file: &[u8], kind: Kind) -> bool
    ensures { result ≡ has_magic kind file.now }
{
    match kind {
        Kind::Single => is_four(file, 344, b'n', b'+', b'1', 0),
        Kind::Pair => is_four(file, 344, b'n', b'i', b'1', 0),
    }
}

// The kind of a file that rule 4 passes.
pub fn kind_of(file: &[u8]) -> Kind
    ensures { result ≡ kind_of file.now }
{
    if has_magic(file, Kind::Single) {
        Kind::Single
    } else {
        Kind::Pair
    }
}

// Rules 3 and 4 of a file that 1 and 2 pass, with the byte order in which it passes 2.
fn start_by(file: &[u8], order: Order) -> Result<(Order, Kind), Refusal>
    requires { (348 ≤ length file.now) × (order_of file.now ≡ order) × (holds_in order file.now ≡ true) }
    ensures { (len : ℕ) → 348 ≤ len → result ≡ start_in file.now len }
{
    if i32::read(file, 0, order) != 348 {
        return Err(Rule::HeaderSize.at(0));
    }
    let kind = kind_of(file);
    if !has_magic(file, kind) {
        return Err(Rule::UnknownMagic.at(344));
    }
    Ok((order, kind))
}

// Rules 1 to 4 of a file of `len` bytes. Each byte order has a branch of its own: from there on the compiler knows dim[0].
fn start_in(file: &[u8], len: usize) -> Result<(Order, Kind), Refusal>
    requires { min len 348 ≤ length file.now }
    ensures { result ≡ start_in file.now len }
{
    if len < 348 {
        return Err(Rule::ShortHeader.at(0));
    }
    if holds_in(file, Order::Little) {
        return start_by(file, Order::Little);
    }
    if holds_in(file, Order::Big) {
        return start_by(file, Order::Big);
    }
    Err(Rule::AxisCount.at(40))
}

// The fields that rules 5 to 10 judge.
fn shape_in(file: &[u8], order: Order, kind: Kind) -> Shape
    requires { 348 ≤ length file.now }
    ensures { result ≡ shape_in order kind file.now }
{
    Shape {
        kind,
        dim: header::dims(file, order),
        datatype: i16::read(file, 70, order),
        bitpix: i16::read(file, 72, order),
        vox_offset: u32::read(file, 108, order),
    }
}

// Rule 12: a pair's header file that ends inside its extender.
fn cut_extender(kind: Kind, len: usize) -> bool
    ensures { result ≡ cut_extender kind len }
{
    match kind {
        Kind::Single => false,
        Kind::Pair => (348 < len) & (len < 352),
    }
}

// Whether the extender says that there are extensions: of its four bytes only the first has a meaning.
pub fn has_extensions(file: &[u8]) -> bool
    ensures { result ≡ has_extensions file.now }
{
    field::byte_at(file, 348) != 0
}

// Rules 11 and 12.
fn check_end(len: usize, kind: Kind, image: Image) -> Result<(), Refusal>
    ensures { result ≡ verdict (end_rows kind image len) }
{
    if bounds::cut_short(kind, len, image) {
        return Err(Rule::FileCut.at(108));
    }
    if cut_extender(kind, len) {
        return Err(Rule::ExtenderCut.at(348));
    }
    Ok(())
}

// Rules 5 to 12 of a file that 1 to 4 pass.
fn check_fields(file: &[u8], len: usize, order: Order, kind: Kind) -> Result<Layout, Refusal>
    requires { (min len 348 ≤ length file.now) × (start_in file.now len ≡ Ok (order, kind)) }
    ensures { result ≡ checked_in file.now len }
{
    let (image, aligned) = rules::judge(shape_in(file, order, kind), len)?;
    check_end(len, kind, image)?;
    Ok(Layout {
        order,
        kind,
        image,
        aligned,
    })
}

// Rules 1 to 12 of a file of `len` bytes, of which `file` has the header or, where there are fewer, all.
pub fn check_in(file: &[u8], len: usize) -> Result<Layout, Refusal>
    requires { min len 348 ≤ length file.now }
    ensures { result ≡ checked_in file.now len }
{
    let (order, kind) = start_in(file, len)?;
    check_fields(file, len, order, kind)
}

// The same of a whole file.
pub fn check(file: &[u8]) -> Result<Layout, Refusal>
    ensures { result ≡ checked_of file.now }
{
    check_in(file, file.len())
}
