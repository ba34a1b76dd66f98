// Uniform residues, errors and multipliers from bytes, one at a time and in turn (003, section 2.2.3, algorithms 8 to 10).
#![tactic(auto)]

pub mod small;
pub mod uniform;

ghost use Rattle.std.specs.Prelude.{◌≡◌, Err};
ghost use Rattle.calls.specs.Outcome.{outcome, refused};
ghost use Rattle.draws.specs.Uniform.{draw_number};

use calls::{Answer, Refusal};

// Why a uniform draw is refused.
#[derive(Clone, Copy, Debug, PartialEq, Eq)]
pub enum DrawRefusal {
    // the bytes end before the result
    BytesEnded,
    // 128 candidates in a row were set aside for it
    SetAside,
}

impl DrawRefusal {
    // The refusal of a call whose result at this place is refused.
    pub fn at(self, place: u32) -> Refusal
        ensures { outcome (Err result) ≡ refused (draw_number self) place }
    {
        match self {
            DrawRefusal::BytesEnded => Refusal::BytesEnded(place),
            DrawRefusal::SetAside => Refusal::SetAside(place),
        }
    }
}

// The refusal of a call that names no place.
impl From<DrawRefusal> for Refusal {
    ghost from_gives = { λ draw refusal. outcome (Err refusal) ≡ refused (draw_number draw) 0 };

    fn from(draw: DrawRefusal) -> Refusal {
        draw.at(0)
    }
}

// What one uniform draw answers: the number with the next byte position.
pub type Draw = Result<(u32, usize), DrawRefusal>;
