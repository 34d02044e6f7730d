// A voxel of a file that was read before, by the C interface's struct of the file (02-change-requests.md, P4): what its numbers stand for.
// The export itself, in the crate vestumbral, lends the struct's dims and steps, so that they are not copied.
#![tactic(auto)]

ghost use Rattle.std.specs.Prelude.{◌≡◌};
ghost use Rattle.voxel_answers.specs.Answers.{kind_by, own_refusal};

use answers::Reply;
use header::Kind;

pub fn kind_by(pair: u32) -> Kind
    ensures { result ≡ kind_by pair }
{
    if pair == 0 { Kind::Single } else { Kind::Pair }
}

// The struct's own refusal.
pub fn own_refusal(refusal: u64, place: u64) -> Reply
    ensures { result ≡ own_refusal refusal place }
{
    Reply {
        refusal,
        place,
        length: 0,
        aligned: 0,
    }
}
