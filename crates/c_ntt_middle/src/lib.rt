// The transformed middle product as a function for callers in C (include/titanium.h).
#![tactic(auto)]

ghost use Rattle.std.specs.Prelude.{◌≡◌, length};
ghost use Rattle.ntt_middle.specs.Calls.{transformed_answer, transformed_left, middle_work_left};
ghost use Rattle.c_answer.specs.Coded.{coded};

use c_answer::code;

// The middle product through the transforms.
#[unsafe(no_mangle)]
pub extern "C" fn titanium_transformed_middle_product(
    set: usize,
    a: &[u32],
    b: &[u32],
    out: &mut [u32],
    work: &mut [u32],
) -> u64
    ensures answer { result ≡ coded (transformed_answer set a.now b.now
        (length out.old) (length work.old)) }
    ensures left { out.new ≡ transformed_left set a.now b.now out.old (length work.old) }
    ensures cleared { work.new ≡ middle_work_left set (length a.now) (length b.now)
        (length out.old) work.old }
{
    code(ntt_middle::middle_product(set, a, b, out, work))
}
