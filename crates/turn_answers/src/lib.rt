// A turn of a volume as the C interface has it: numbers for the turn, and a struct of numbers for the answer.
#![tactic(auto)]

ghost use Rattle.std.specs.Prelude.{◌≡◌};
ghost use Rattle.turn_answers.specs.Answers.{turn_of, turned_answer};

use refusal::Refusal;
use reorient::Turn;
use turn::Lengths;

// `vestumbral_turned` of the C header.
#[repr(C)]
#[derive(Clone, Copy)]
pub struct TurnedAnswer {
    pub refusal: u64,
    pub place: u64,
    pub length: u64,
    pub image_length: u64,
}

// The turn of six numbers: the old axis of each new one, and whether each old axis is reversed.
pub fn turn_of(
    axis1: u64,
    axis2: u64,
    axis3: u64,
    reverse1: u64,
    reverse2: u64,
    reverse3: u64,
) -> Turn
    ensures { result ≡ turn_of axis1 axis2 axis3 reverse1 reverse2 reverse3 }
{
    Turn {
        axis1: axis1 as usize,
        axis2: axis2 as usize,
        axis3: axis3 as usize,
        reversed1: reverse1 != 0,
        reversed2: reverse2 != 0,
        reversed3: reverse3 != 0,
    }
}

// The answer of `turn`.
impl From<Result<Lengths, Refusal>> for TurnedAnswer {
    ghost from_gives = { λ turned a. a ≡ turned_answer turned };

    fn from(turned: Result<Lengths, Refusal>) -> TurnedAnswer {
        match turned {
            Ok(n) => TurnedAnswer {
                refusal: 0,
                place: 0,
                length: n.file as u64,
                image_length: n.image as u64,
            },
            Err(r) => TurnedAnswer {
                refusal: r.number(),
                place: r.place as u64,
                length: 0,
                image_length: 0,
            },
        }
    }
}
