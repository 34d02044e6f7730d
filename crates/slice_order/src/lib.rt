// The slice of a rank, worked out and not looked for: 02-change-requests.md, P8, "A call finds the slice again from a rank". Whether
// timing is stated, and whether the rank is below the number of acquired slices, is for the caller to say. Each function is the
// inverse of one of the crate slices, and says so by that one's definition.
#![tactic(auto)]

ghost use Rattle.std.specs.Prelude.{◌≡◌, ◌<◌, ◌≤◌};
ghost use Rattle.slices.specs.Ranks.{count_of, order_in, parity_rank, rank_of};
ghost use Rattle.slice_order.specs.Slices.{slice_with};

// The o that has the rank r among n slices where the o of one parity come first: by ALT (first 0) the even ones, by ALT2 (first 1) the odd ones.
fn parity_order(first: u16, n: u16, r: u16) -> u16
    requires { (first < 2) × (r < n) × (n ≤ 32768) }
    ensures { (result < n) × (parity_rank first n result ≡ r) }
{
    let firsts = (n + 1 - first) / 2;
    if r < firsts {
        2 * r + first
    } else {
        2 * (r - firsts) + 1 - first
    }
}

// By any of the six codes.
#[tactic(auto, unfolding(slices::specs::Ranks::rank_of))]
fn order_of(code: u8, n: u16, r: u16) -> u16
    requires { (r < n) × (n ≤ 32768) }
    ensures { (result < n) × (rank_of code n result ≡ r) }
{
    match code {
        0..=2 => r,
        3..=4 => parity_order(0, n, r),
        _ => parity_order(1, n, r),
    }
}

// The slice that has this o.
#[tactic(auto, unfolding(slices::specs::Ranks::order_in))]
fn slice_from(code: u8, start: u16, end: u16, o: u16) -> u16
    requires { (start ≤ end) × (end ≤ 32767) × (o < count_of start end) }
    ensures { (start ≤ result) × (result ≤ end) × (order_in code start end result ≡ o) }
{
    if code % 2 == 1 { start + o } else { end - o }
}

// The slice of the rank r among the slices start to end.
#[tactic(auto, using(crate::proofs::Theorems::slice_found))]
pub fn slice_of(code: u8, start: u16, end: u16, r: u16) -> u16
    requires { (start ≤ end) × (end ≤ 32767) × (r < count_of start end) }
    ensures { result ≡ slice_with code start end r }
{
    slice_from(code, start, end, order_of(code, end - start + 1, r))
}
