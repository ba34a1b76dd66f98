// Titanium 1.1 as 003 defines it, its noise and the bits read: definitions and laws. The only code is that of lengths.
#![tactic(auto)]

ghost use Rattle.std.specs.Prelude.{◌≡◌};
ghost use Rattle.sets.specs.Rules.{Rules};
ghost use Rattle.scheme.specs.Answers.{work_length_of};

use sets::Parameters;

// How many numbers the work slice of every call of a set has.
pub fn work_length(p: Parameters) -> usize
    requires { Rules p }
    ensures { result ≡ work_length_of p }
{
    p.d3 + p.d1 + sets::derived::error_count(p) + p.t * p.d1
}
