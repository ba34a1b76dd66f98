// The partial transform and its inverse as functions for callers in C (include/titanium.h).
#![tactic(auto)]

ghost use Rattle.std.specs.Prelude.{◌≡◌, length};
ghost use Rattle.ntt_partial_checks.specs.Checks.{partial_answer_of};
ghost use Rattle.ntt_partial.specs.Calls.{partial_left, partial_inverse_left};
ghost use Rattle.c_answer.specs.Coded.{coded};

use c_answer::code;

// The transform of the first `m` of `d1` rows of `d2` numbers.
#[unsafe(no_mangle)]
pub extern "C" fn titanium_partial_transform(
    set: usize,
    d1: usize,
    d2: usize,
    m: usize,
    input: &[u32],
    output: &mut [u32],
) -> u64
    ensures answer { result ≡ coded (partial_answer_of set d1 d2 m input.now (length output.old)) }
    ensures left { output.new ≡ partial_left set d1 d2 m input.now output.old }
{
    code(ntt_partial::forward(set, d1, d2, m, input, output))
}

// The first `m` rows of what `d1` rows of `d2` numbers were made from.
#[unsafe(no_mangle)]
pub extern "C" fn titanium_partial_inverse(
    set: usize,
    d1: usize,
    d2: usize,
    m: usize,
    input: &[u32],
    output: &mut [u32],
) -> u64
    ensures answer { result ≡ coded (partial_answer_of set d1 d2 m input.now (length output.old)) }
    ensures left { output.new ≡ partial_inverse_left set d1 d2 m input.now output.old }
{
    code(ntt_partial::inverse(set, d1, d2, m, input, output))
}
