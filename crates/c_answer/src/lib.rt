// The answer of an open call in one number, for callers in C.
#![tactic(auto)]

ghost use Rattle.std.specs.Prelude.{◌≡◌};
ghost use Rattle.calls.specs.Outcome.{outcome};
ghost use Rattle.c_answer.specs.Coded.{coded};

use calls::Answer;

// An answer in one number.
pub fn code(answer: Answer) -> u64
    ensures { result ≡ coded (outcome answer) }
{
    match answer {
        Ok(()) => 0,
        Err(refusal) => refusal.number() as u64 + 256 * (refusal.place() as u64),
    }
}
