// Slice ranks and slice times: 01-scope.md, "Slices and positions", first paragraph. Whether timing is
// stated, and whether a slice is padding, is for the caller to say.
#![tactic(auto)]

ghost use Rattle.std.specs.Prelude.{◌≡◌, true, ◌<◌, ◌≤◌};
ghost use Rattle.std.specs.Float.{binary32};
ghost use Rattle.std.specs.Float.Ieee.{of_bits};
ghost use Rattle.std.specs.Float.Ieee.Positive.{positive};
ghost use Rattle.slices.specs.Ranks.{order_in, parity_rank, rank_of, rank_in};
ghost use Rattle.slices.specs.Times.{time_of};

// o: s - start where the slices are acquired upwards (INC), end - s where downwards (DEC).
#[tactic(auto, unfolding(crate::specs::Ranks::order_in))]
fn order_in(code: u8, start: u16, end: u16, s: u16) -> u16
    requires { (start ≤ s) × (s ≤ end) }
    ensures { result ≡ order_in code start end s }
{
    if code % 2 == 1 { s - start } else { end - s }
}

// The rank among n slices where the o of one parity come first: by ALT (first 0) the even ones, by ALT2 (first 1) the odd ones.
#[tactic(auto, unfolding(crate::specs::Ranks::alt_rank, crate::specs::Ranks::alt2_rank))]
fn parity_rank(first: u16, n: u16, o: u16) -> u16
    requires { (first < 2) × (o < n) × (n ≤ 32767) }
    ensures { result ≡ parity_rank first n o }
{
    if o % 2 == first {
        o / 2
    } else {
        (n + 1 - first) / 2 + o / 2
    }
}

// The rank by any of the six codes.
#[tactic(auto, unfolding(crate::specs::Ranks::rank_of))]
fn rank_of(code: u8, n: u16, o: u16) -> u16
    requires { (o < n) × (n ≤ 32767) }
    ensures { result ≡ rank_of code n o }
{
    match code {
        0..=2 => o,
        3..=4 => parity_rank(0, n, o),
        _ => parity_rank(1, n, o),
    }
}

// The rank of the slice s among the slices start to end.
#[tactic(auto, using(crate::proofs::RankLaws::order_below))]
pub fn rank(code: u8, start: u16, end: u16, s: u16) -> u16
    requires { (start ≤ s) × (s ≤ end) × (end ≤ 32766) }
    ensures { result ≡ rank_in code start end s }
{
    rank_of(code, end - start + 1, order_in(code, start, end, s))
}

// Whether the number of a bit pattern is finite and above zero. The patterns of these numbers are
// those from 1 up to that of the infinity.
pub fn is_positive(bits: u32) -> bool
    ensures { result ≡ positive (of_bits binary32 bits) }
{
    (0 < bits) & (bits < 0x7f80_0000)
}

// The time of a rank, by the bit pattern of slice_duration.
pub fn time_of(duration: u32, rank: u16) -> Option<f32>
    requires { positive (of_bits binary32 duration) ≡ true }
    ensures { result ≡ time_of duration rank }
{
    let t = (rank as f32) * f32::from_bits(duration);
    (t < f32::INFINITY).then_some(t)
}
