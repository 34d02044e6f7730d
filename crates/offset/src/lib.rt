// The voxel offset of a header (vox_offset), a binary32: from its 32 bits to a whole number, by
// integers alone, and back. The rules named are those of 01-scope.md.
#![tactic(auto)]

ghost use Rattle.std.specs.Prelude.{◌≡◌, Err, Ok};
ghost use Rattle.offset.specs.Offset.{offset_of, whole_in, says_aligned, offset_bits};

use refusal::{Refusal, Rule};

// A whole number up to the limit (02-change-requests.md, P6): a multiple of 16, or one that is none.
#[derive(Clone, Copy)]
pub enum Offset {
    Aligned(u64),
    Unaligned(u64),
}

// The largest offset a file may have.
pub const LIMIT: u64 = 134_217_728;

// What the bits say: the whole number, or the refusal by rule 8 or by the upper bound of rule 9. From 1 on, a number with the exponent field e and the digits t is
// (2^23 + t) * 2^(e - 150).
pub fn decode(bits: u32) -> Result<Offset, Refusal>
    ensures { result ≡ offset_of bits }
{
    // Both zeros: no bit is set but the sign's.
    if bits % 0x8000_0000 == 0 {
        return Ok(Offset::Aligned(0));
    }
    // An infinity, a NaN or a number below zero.
    if 0x7f80_0000 <= bits {
        return Err(Rule::OffsetNotWhole.at(108));
    }
    // Above 0 and below 1.
    if bits < 0x3f80_0000 {
        return Err(Rule::OffsetNotWhole.at(108));
    }
    let exponent = bits / 0x80_0000;
    // From 2^28 on there are no fractions.
    if 155 <= exponent {
        return Err(Rule::OffsetOutside.at(108));
    }
    let significand = (0x80_0000 + bits % 0x80_0000) as u64;
    // The number in parts of 2^-23.
    let scaled = significand << (exponent - 127);
    if scaled % 0x80_0000 != 0 {
        return Err(Rule::OffsetNotWhole.at(108));
    }
    let whole = scaled / 0x80_0000;
    if LIMIT < whole {
        return Err(Rule::OffsetOutside.at(108));
    }
    if whole % 16 == 0 {
        Ok(Offset::Aligned(whole))
    } else {
        Ok(Offset::Unaligned(whole))
    }
}

impl Offset {
    // The whole number, aligned or not.
    pub fn whole(self) -> u64
        ensures { result ≡ whole_in (Ok self) }
    {
        match self {
            Offset::Aligned(n) => n,
            Offset::Unaligned(n) => n,
        }
    }

    // Whether it is aligned.
    pub fn is_aligned(self) -> bool
        ensures { result ≡ says_aligned (Ok self) }
    {
        match self {
            Offset::Aligned(_) => true,
            Offset::Unaligned(_) => false,
        }
    }
}

// The whole number of what was read, aligned or not; 0 where the bits were refused.
pub fn whole_in(offset: Result<Offset, Refusal>) -> u64
    ensures { result ≡ whole_in offset }
{
    offset.map_or(0, |found| found.whole())
}

// Whether it is aligned.
pub fn says_aligned(offset: Result<Offset, Refusal>) -> bool
    ensures { result ≡ says_aligned offset }
{
    offset.is_ok_and(|found| found.is_aligned())
}

// The bits of the binary32 nearest to n: of n itself, where n is a multiple of 16 up to the limit.
pub fn encode(n: u32) -> u32
    ensures { result ≡ offset_bits n }
{
    f32::to_bits(std::num::nearest_u32_to_f32(n))
}
