// Slice timing, by the fields that state it or by a record: 01-scope.md, "Slices and positions", first paragraph. How a rank
// and a time are worked out is for the crate slices; here stand when timing is stated, and which answer comes before which.
#![tactic(auto)]

ghost use Rattle.std.specs.Prelude.{◌≡◌, true, ◌≤◌, ◌<◌};
ghost use Rattle.timing.specs.Slices.{slice_dim, acquires, is_stated, slice_count, first_slice, last_slice, slice_by, acquisition_of, slice_in};

use header::Header;
use refusal::{Refusal, Rule};

// The fields that say how the slices were acquired.
#[derive(Clone, Copy)]
pub struct Acquisition {
    pub dim: [i16; 8],
    pub dim_info: u8,
    pub slice_start: i16,
    pub slice_end: i16,
    pub slice_code: u8,
    pub slice_duration: u32,
}

// What is answered of a slice that is not refused: that its timing is unstated, that it is padding, or its rank and its time.
#[derive(Clone, Copy)]
pub enum Slice {
    Unstated,
    Padding,
    Timed(u16, f32),
}

// slice_dim: bits 4 and 5 of dim_info.
fn slice_dim(dim_info: u8) -> usize
    ensures { (result ≡ slice_dim dim_info) × (result < 4) }
{
    (dim_info / 16 % 4) as usize
}

// Whether slice_start, slice_end and dim[slice_dim] are in order.
fn acquires_in(start: i16, end: i16, length: i16) -> bool
    ensures { result ≡ acquires start end length }
{
    (0 <= start) & (start < end) & (end < length)
}

// Whether timing is stated.
#[tactic(auto, unfolding(crate::specs::Slices::is_stated))]
pub fn is_stated(a: Acquisition) -> bool
    ensures { result ≡ is_stated a }
{
    let d = slice_dim(a.dim_info);
    let axis = (1 <= d) & (d <= 3) & (d <= rules::axis_count(&a.dim));
    axis & slices::is_positive(a.slice_duration)
        & ((1 <= a.slice_code) & (a.slice_code <= 6))
        & acquires_in(a.slice_start, a.slice_end, a.dim[d])
}

// How many slices their axis has, where timing is stated.
pub fn slice_count(a: Acquisition) -> u64
    ensures { (result ≡ slice_count a) × (result ≤ 32767) }
{
    grid::axis_length(&a.dim, slice_dim(a.dim_info))
}

// The first slice that was acquired, where timing is stated.
pub fn first_slice(a: Acquisition) -> u64
    ensures { (result ≡ first_slice a) × (result ≤ 32767) }
{
    number::natural(a.slice_start)
}

// The last one.
pub fn last_slice(a: Acquisition) -> u64
    ensures { (result ≡ last_slice a) × (result ≤ 32767) }
{
    number::natural(a.slice_end)
}

// The answer where timing is stated.
#[tactic(auto, using(crate::proofs::Answers::stated_has, crate::proofs::Answers::slice_outside, crate::proofs::Answers::slice_padding))]
fn slice_stated(a: Acquisition, s: u64) -> Result<Slice, Refusal>
    requires { is_stated a ≡ true }
    ensures { result ≡ slice_by a s }
{
    if slice_count(a) <= s {
        return Err(Rule::IndexOutside.at(0));
    }
    let start = first_slice(a);
    let end = last_slice(a);
    if (s < start) | (end < s) {
        return Ok(Slice::Padding);
    }
    let rank = slices::rank(a.slice_code, start as u16, end as u16, s as u16);
    let time = slices::time_of(a.slice_duration, rank);
    Ok(time.map_or(Slice::Unstated, |time| Slice::Timed(rank, time)))
}

// The slice s by the fields that say how the slices were acquired. Any fields may be asked.
#[tactic(auto, using(crate::proofs::Answers::slice_unstated))]
pub fn slice_by(a: Acquisition, s: u64) -> Result<Slice, Refusal>
    ensures { result ≡ slice_by a s }
{
    if is_stated(a) {
        slice_stated(a, s)
    } else {
        Ok(Slice::Unstated)
    }
}

// These fields of a record.
pub fn acquisition_of(header: Header) -> Acquisition
    ensures { result ≡ acquisition_of header }
{
    let dim = header.dim;
    Acquisition {
        dim,
        dim_info: header.key.dim_info,
        slice_start: header.intent.slice_start,
        slice_end: header.scale.slice_end,
        slice_code: header.scale.slice_code,
        slice_duration: header.display.slice_duration,
    }
}

// The slice s by a record. Any record may be asked.
pub fn slice_in(header: Header, s: u64) -> Result<Slice, Refusal>
    ensures { result ≡ slice_in header s }
{
    slice_by(acquisition_of(header), s)
}
