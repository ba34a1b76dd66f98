// The partial transform of 003 (section 3.2.2, algorithms 36 and 37) as two open calls, for any D1 rows of D2 numbers that a transform size of the set has
// (02, No. 2).
#![tactic(auto)]

ghost use Rattle.std.specs.Prelude.{◌≡◌, length};
ghost use Rattle.calls.specs.Outcome.{outcome};
ghost use Rattle.ntt_partial_checks.specs.Checks.{partial_answer_of};
ghost use Rattle.ntt_partial.specs.Calls.{partial_left, partial_inverse_left};

use calls::Answer;

// Two functions, since C has a name for each (titanium_partial_transform, titanium_partial_inverse); alike but for the step, and for the part that is lent.
// The transform of the first `m` of `rows` rows, with zeros for the others, whose numbers are only checked; in the order of 003's permutation.
pub fn forward(
    set: usize,
    rows: usize,
    row: usize,
    m: usize,
    input: &[u32],
    out: &mut [u32],
) -> Answer
    ensures answer { outcome result ≡ partial_answer_of set rows row m input.now (length out.old) }
    ensures left { out.new ≡ partial_left set rows row m input.now out.old }
{
    let p = sets::parameters_of(set);
    let i = ntt_partial_checks::checked(set, p, rows, row, m, input, out.len())?;
    if row == 256 {
        ntt_partial_steps::forward_wide(p, i, m, input, out);
        return Ok(());
    }
    ntt_partial_steps::forward_plain(p, i, rows, row, m, input, out);
    Ok(())
}

// The first `m` of `rows` rows of what the input was made from, in the order of the whole inverse transform; the other rows of the output stay as they were.
pub fn inverse(
    set: usize,
    rows: usize,
    row: usize,
    m: usize,
    input: &[u32],
    out: &mut [u32],
) -> Answer
    ensures answer { outcome result ≡ partial_answer_of set rows row m input.now (length out.old) }
    ensures left { out.new ≡ partial_inverse_left set rows row m input.now out.old }
{
    let p = sets::parameters_of(set);
    let i = ntt_partial_checks::checked(set, p, rows, row, m, input, out.len())?;
    let end = m * row;
    if row == 256 {
        ntt_partial_steps::inverse_wide(p, i, m, input, &mut out[0..end]);
        return Ok(());
    }
    ntt_partial_steps::inverse_plain(p, i, rows, row, m, input, &mut out[0..end]);
    Ok(())
}
