// The draws over lent bytes as functions for callers in C (include/titanium.h).
#![tactic(auto)]

ghost use Rattle.std.specs.Prelude.{◌≡◌, length};
ghost use Rattle.lent_draws.specs.Calls.{residues_answer, residues_left, errors_answer, errors_left, multipliers_answer, multipliers_left};
ghost use Rattle.c_answer.specs.Coded.{coded};

use c_answer::code;

// Uniform residues from lent bytes.
#[unsafe(no_mangle)]
pub extern "C" fn titanium_draw_residues(set: usize, bytes: &[u8], out: &mut [u32]) -> u64
    ensures answer { result ≡ coded (residues_answer set bytes.now (length out.old)) }
    ensures result { out.new ≡ residues_left set bytes.now out.old }
{
    code(lent_draws::residues(set, bytes, out))
}

// Errors from lent bytes.
#[unsafe(no_mangle)]
pub extern "C" fn titanium_draw_errors(set: usize, bytes: &[u8], out: &mut [i32]) -> u64
    ensures answer { result ≡ coded (errors_answer set bytes.now (length out.old)) }
    ensures result { out.new ≡ errors_left set bytes.now out.old }
{
    code(lent_draws::errors(set, bytes, out))
}

// Multipliers from lent bytes, from the position `first` of one sealing on.
#[unsafe(no_mangle)]
pub extern "C" fn titanium_draw_multipliers(
    set: usize,
    bytes: &[u8],
    first: usize,
    out: &mut [i32],
) -> u64
    ensures answer { result ≡ coded (multipliers_answer set bytes.now first (length out.old)) }
    ensures result { out.new ≡ multipliers_left set bytes.now first out.old }
{
    code(lent_draws::multipliers(set, bytes, first, out))
}
