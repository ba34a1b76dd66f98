// Uniform residues from candidates of three bytes (specs/Uniform.antt).
ghost use Rattle.std.specs.Prelude.{◌≡◌, ◌+◌, ◌≤◌, ◌<◌, length};
ghost use Rattle.calls.specs.Region.{region};
ghost use Rattle.calls.specs.Outcome.{outcome, accepted};
ghost use Rattle.maths.specs.Bytes.{little_endian};
ghost use Rattle.draws.specs.Uniform.{candidates, accept, numbers, sample, sample_at};
ghost use Rattle.draws.specs.Calls.{drawn_answer};

use crate::{Draw, DrawRefusal};
use calls::Answer;

// The number of the three bytes from a position on.
pub fn candidate_at(bytes: &[u8], position: usize) -> u32
    requires { position + 3 ≤ length bytes.now }
    ensures { result ≡ little_endian (region bytes.now position 3) }
{
    u32::from_le_bytes([bytes[position], bytes[position + 1], bytes[position + 2], 0])
}

// One residue modulo q from the bytes from a position on, with `before` candidates set aside in a row for it so far: the one loop over candidates,
// which the draws from a seed use too. The scale of q is worked out before anything is looked at, so that a loop of draws works it out once.
pub fn draw_one(bytes: &[u8], at: usize, q: u32, threshold: u32, before: u32) -> Draw
    requires { (0 < q) × (before < 128) }
    ensures { sample result ≡ sample_at q threshold before bytes.now at }
{
    let scale = residues::scale(q);
    let end = bytes.len().saturating_sub(2);
    // the position goes on by hand: a range by steps of three took a quarter more instructions
    let mut position = at;
    for _run in before..128 {
        if end <= position {
            return Err(DrawRefusal::BytesEnded);
        }
        let candidate = candidate_at(bytes, position);
        position += 3;
        if candidate < threshold {
            return Ok((residues::reduce_scaled(candidate, q, scale), position));
        }
    }
    Err(DrawRefusal::SetAside)
}

// The answer of a draw of residues: the first refusal with its result's place. Nothing is written.
pub fn look(bytes: &[u8], q: u32, threshold: u32, wanted: usize) -> Answer
    requires { (0 < q) × (wanted ≤ 4096) }
    ensures { outcome result ≡ drawn_answer 0 (accept q threshold wanted 0 (candidates bytes.now)) }
{
    let mut position: usize = 0;
    for i in 0..wanted {
        // a draw is taken apart by `let .. else`, the form that the scope names for its callers
        let drawn = draw_one(bytes, position, q, threshold, 0);
        let Ok((_, next)) = drawn else {
            return Err(drawn.unwrap_err().at(i as u32));
        };
        position = next;
    }
    Ok(())
}

// Draws a residue for each number of `out`, where no draw is refused.
pub fn fill(bytes: &[u8], q: u32, threshold: u32, out: &mut [u32])
    requires { (0 < q) × (drawn_answer 0 (accept q threshold (length out.old) 0 (candidates bytes.now)) ≡ accepted) }
    ensures { out.new ≡ numbers (accept q threshold (length out.old) 0 (candidates bytes.now)) }
{
    let mut position: usize = 0;
    for number in out.iter_mut() {
        let Ok((residue, next)) = draw_one(bytes, position, q, threshold, 0) else {
            return;
        };
        *number = residue;
        position = next;
    }
}
