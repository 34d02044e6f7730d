// The slice of a rank, by the fields that state timing or by a record: 02-change-requests.md, P8, "A call finds the slice again from a rank".
// How a rank is worked out is for the crate slices, and its slice for slice_order; here stands which answer comes before which.
#![tactic(auto)]

ghost use Rattle.std.specs.Prelude.{◌≡◌, ◌≤◌};
ghost use Rattle.slice_rank.specs.Ranked.{acquired_count, ranked_by, ranked_in};

use header::Header;
use refusal::{Refusal, Rule};
use timing::Acquisition;

// N, the number of acquired slices, where timing is stated.
pub fn acquired_count(a: Acquisition) -> u64
    ensures { (result ≡ acquired_count a) × (result ≤ 32768) }
{
    timing::last_slice(a).saturating_sub(timing::first_slice(a)) + 1
}

// The slice of a rank by the fields that say how the slices were acquired. Any fields may be asked. No time is asked, for an
// infinite one doesn't matter.
#[tactic(auto, using(crate::proofs::Theorems::rank_unstated, crate::proofs::Theorems::rank_outside))]
pub fn ranked_by(a: Acquisition, rank: u64) -> Result<Option<u16>, Refusal>
    ensures { result ≡ ranked_by a rank }
{
    if !timing::is_stated(a) {
        return Ok(None);
    }
    if acquired_count(a) <= rank {
        return Err(Rule::IndexOutside.at(0));
    }
    let start = timing::first_slice(a) as u16;
    let end = timing::last_slice(a) as u16;
    Ok(Some(slice_order::slice_of(a.slice_code, start, end, rank as u16)))
}

// The slice of a rank by a record. Any record may be asked.
pub fn ranked_in(header: Header, rank: u64) -> Result<Option<u16>, Refusal>
    ensures { result ≡ ranked_in header rank }
{
    ranked_by(timing::acquisition_of(header), rank)
}
