// The checks of numbers that the open calls share: refused with 3 at the first number out of range (01, How each call answers).
ghost use Rattle.std.specs.Prelude.{◌≡◌, ◌++◌, ◌+◌, ◌≤◌, length};
ghost use Rattle.calls.specs.Outcome.{outcome, accepted};
ghost use Rattle.calls.specs.Checks.{refuse_first, below};

use calls::Answer;

// Refused at the first number that is `limit` or more, its place counted from `offset`.
pub fn one_checked(xs: &[u32], limit: u32, offset: usize) -> Answer
    requires { offset + length xs.now ≤ 65536 }
    ensures { outcome result ≡ refuse_first (below limit) 0 offset xs.now accepted }
{
    calls::first_checked(calls::first_at_least(xs, limit), xs.len(), offset)
}

// Refused at the first number of `a`, then of `b`, that is `q` or more.
pub fn two_checked(a: &[u32], b: &[u32], q: u32) -> Answer
    requires { length a.now + length b.now ≤ 65536 }
    ensures { outcome result ≡ refuse_first (below q) 0 0 (a.now ++ b.now) accepted }
{
    one_checked(a, q, 0)?;
    one_checked(b, q, a.len())
}
