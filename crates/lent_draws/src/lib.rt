// The three open draws over lent bytes: uniform residues, errors and multipliers (01, Draws over lent bytes).
#![tactic(auto)]

ghost use Rattle.std.specs.Prelude.{◌≡◌, length};
ghost use Rattle.calls.specs.Outcome.{outcome, accepted};
ghost use Rattle.lent_draws.specs.Calls.{refuse_shape, residues_answer, residues_left, errors_answer, errors_left, multipliers_answer, multipliers_left};

use calls::{Answer, Refusal};

// The checks of the set and of how many results are wanted.
fn check_shape(set: usize, wanted: usize) -> Answer
    ensures { outcome result ≡ refuse_shape set wanted accepted }
{
    if set < 1 {
        return Err(Refusal::NoSuchSet);
    }
    if sets::LAST < set {
        return Err(Refusal::NoSuchSet);
    }
    if 4096 < wanted {
        return Err(Refusal::Length);
    }
    Ok(())
}

// Draws a uniform residue for each number of `out`.
pub fn residues(set: usize, bytes: &[u8], out: &mut [u32]) -> Answer
    ensures answer { outcome result ≡ residues_answer set bytes.now (length out.old) }
    ensures result { out.new ≡ residues_left set bytes.now out.old }
{
    let wanted = out.len();
    check_shape(set, wanted)?;
    let p = sets::parameters_of(set);
    // no `?`, since the edit residues_refused_at_place_0 changes what is handed on here
    if let Err(refusal) = draws::uniform::look(bytes, p.q, p.zqrej, wanted) {
        return Err(refusal);
    }
    draws::uniform::fill(bytes, p.q, p.zqrej, out);
    Ok(())
}

// Draws an error for each number of `out`.
pub fn errors(set: usize, bytes: &[u8], out: &mut [i32]) -> Answer
    ensures answer { outcome result ≡ errors_answer set bytes.now (length out.old) }
    ensures result { out.new ≡ errors_left set bytes.now out.old }
{
    let wanted = out.len();
    check_shape(set, wanted)?;
    if bytes.len() < wanted {
        return Err(Refusal::BytesEnded(bytes.len() as u32));
    }
    draws::small::fill_errors(bytes, out);
    Ok(())
}

// Draws the multipliers from the position `first` on, one for each number of `out`, from the bytes of one whole sealing.
pub fn multipliers(set: usize, bytes: &[u8], first: usize, out: &mut [i32]) -> Answer
    ensures answer { outcome result ≡ multipliers_answer set bytes.now first (length out.old) }
    ensures result { out.new ≡ multipliers_left set bytes.now first out.old }
{
    let wanted = out.len();
    check_shape(set, wanted)?;
    if wanted == 0 {
        return Ok(());
    }
    let p = sets::parameters_of(set);
    let count = sets::derived::multiplier_count(p);
    if count < wanted {
        return Err(Refusal::Length);
    }
    if count - wanted < first {
        return Err(Refusal::Length);
    }
    let ready = draws::small::lent_results(p, bytes, first, wanted);
    if ready < wanted {
        return Err(Refusal::BytesEnded(ready as u32));
    }
    draws::small::fill_multipliers(p, bytes, first, out);
    Ok(())
}
