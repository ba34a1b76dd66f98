// Uniform draws, block after block (specs/Blocks.antt).
ghost use Rattle.std.specs.Prelude.{◌≡◌, cond, List, ℕ, ◌+◌, ◌-◌, ◌*◌, ◌/◌, ◌^◌, ◌≤◌, ◌<◌, eqb, length};
ghost use Rattle.sets.specs.Rules.{Rules};
ghost use Rattle.draws.specs.Uniform.{draw_number, candidates, taken, accept};
ghost use Rattle.byte_source.specs.Source.{state_at};
ghost use Rattle.samplers.specs.Blocks.{uniform, onward, uniform_answer};
ghost use Rattle.samplers.specs.Blocks.{reached, stopped, standing, standing_after, Written};

use crate::{Advance, Progress};
use draws::DrawRefusal;
use sets::Parameters;

// Where a draw stands when its next result is refused: where the block ended, the candidates of the bytes left in it were all set aside.
fn stopped_at(refusal: DrawRefusal, done: usize, run: u32, left: usize) -> Progress
    requires { draw_number refusal ≡ 4 → run + left / 3 < 128 }
    ensures { standing result
        ≡ cond (eqb (draw_number refusal) 4) (reached done (run + left / 3)) (stopped (draw_number refusal)) }
{
    match refusal {
        DrawRefusal::BytesEnded => Ok((done, run + (left / 3) as u32)),
        DrawRefusal::SetAside => Err(refusal),
    }
}

// Goes on with a draw over the candidates of one block: `from` results are done, and `before` candidates were set aside in a row since.
pub fn continue_draw(
    bytes: &[u8],
    q: u32,
    threshold: u32,
    from: usize,
    before: u32,
    out: &mut [u32],
) -> Progress
    requires { (0 < q) × (3 ≤ length bytes.now) × (from < length out.old) × (before < 128) }
    ensures answer { standing result
        ≡ standing_after from (accept q threshold (length out.old - from) before (candidates bytes.now)) }
    ensures result { Written from (accept q threshold (length out.old - from) before (candidates bytes.now))
        out.old out.new }
{
    let mut position: usize = 0;
    let mut run = before;
    for done in from..out.len() {
        // a draw is taken apart by `let .. else`, the form that the scope names for its callers
        let drawn = draws::uniform::draw_one(bytes, position, q, threshold, run);
        let Ok((residue, next)) = drawn else {
            return stopped_at(drawn.unwrap_err(), done, run, bytes.len() - position);
        };
        out[done] = residue;
        position = next;
        run = 0;
    }
    Ok((out.len(), 0))
}

// Draws a uniform residue for each number of `out`, block after block, each an output of the source that is read into `bytes`.
pub fn residues_with_buffers(
    p: Parameters,
    seed: &[u8],
    first: u32,
    bytes: &mut [u8],
    out: &mut [u32],
) -> Advance
    requires rules { Rules p × (length seed.now ≤ 65536) × (384 ≤ length bytes.old) × (length bytes.old ≤ 10158) }
    requires out_nonzero { (0 < length out.old) × (first + 10159 * length out.old < 2 ^ 32) }
    ensures answer { onward seed.now result
        ≡ uniform_answer p (state_at seed.now first) (length bytes.old) (length out.old) }
    ensures result { (xs : List ℕ) →
        (uniform p (state_at seed.now first) (length bytes.old) (length out.old)).drawn ≡ taken xs →
        out.new ≡ xs }
{
    let mut counter = first;
    let mut done: usize = 0;
    let mut run: u32 = 0;
    // not a count: how many blocks it takes is for their bytes to say
    loop {
        counter = byte_source::source_bytes(p, seed, counter, bytes);
        let (reached, aside) = continue_draw(bytes, p.q, p.zqrej, done, run, out)?;
        if reached == out.len() {
            return Ok(counter);
        }
        done = reached;
        run = aside;
    }
}
