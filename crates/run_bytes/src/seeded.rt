// The draws from a seed, of 32 bytes of the store, and a draw over two blocks of the store. A line of a draw from a seed has, after the numbers of the case
// and the place of the seed, which of the numbers drawn are printed and above which half a number is printed as a negative one; where none is, the line of
// the case is printed.
ghost use Rattle.std.specs.Prelude.{◌<◌};
ghost use Rattle.sets.specs.Rules.{Rules, ByteRules};

use report::script::Line;
use report::{Spaced, script};
use samplers::{Advance, Progress};
use sets::Parameters;
use std::fmt::Display;
use std::{fmt, io};

// The numbers of a set from 1 to 12, with the rules that the draws ask for.
fn parameters(set: usize) -> Parameters
    ensures { Rules result × ByteRules result × (0 < result.q) }
{
    sets::parameters_of(set.clamp(1, 12))
}

// Prints the answer of a uniform draw: the counter afterwards, or the refusal.
fn advance(rt: &impl Print, given: Advance) -> io::Result<()> {
    match given {
        Ok(counter) => print!(rt; " counter {counter}"),
        Err(refusal) => print!(rt; " refused {}", refusal.at(0).number()),
    }
}

// Draws residues from a seed.
fn residues_into(
    set: usize,
    seed: &[u8; 32],
    size: usize,
    first: u32,
    wanted: usize,
    out: &mut [u32; 10240],
) -> Advance {
    let count = wanted.clamp(1, 10240);
    samplers::residues_from(
        parameters(set),
        seed,
        size.clamp(384, 10158),
        first % 1000,
        &mut out[..count],
    )
}

// Draws the errors of one key.
fn errors_into(set: usize, seed: &[u8; 32], counter: u32, out: &mut [u32; 10240]) {
    let p = parameters(set);
    let count = sets::derived::error_count(p);
    samplers::errors_from(p, seed, counter % 100000, &mut out[..count]);
}

// Draws the multipliers of one sealing.
fn multipliers_into(set: usize, seed: &[u8; 32], out: &mut [u32; 10240]) {
    let p = parameters(set);
    let count = sets::derived::multiplier_count(p);
    samplers::multipliers_from(p, seed, &mut out[..count]);
}

// Prints where a draw stands after a block; of a draw that is refused the results are not told.
fn progress(rt: &impl Print, given: &Progress, out: &[u32]) -> io::Result<()> {
    match given {
        Ok((done, run)) => print!(rt; " reached {done} {run} {}", report::checksum(out)),
        Err(refusal) => print!(rt; " refused {}", refusal.at(0).number()),
    }
}

// Goes on with a draw over one block.
fn next_block(set: usize, bytes: &[u8], done: usize, run: u32, out: &mut [u32]) -> Progress {
    let p = parameters(set);
    if done < out.len() && run < 128 && 3 <= bytes.len() {
        return samplers::block::continue_draw(bytes, p.q, p.zqrej, done, run, out);
    }
    Ok((done, run))
}

// Prints where a draw of 40 residues stands after each of two blocks of 384 bytes.
pub fn two_blocks(rt: &impl Print, line: Line, bytes: &[u8]) -> io::Result<()> {
    let set = line.operands[0];
    let mut out = [7u32; 40];
    print!(rt; "blocks{}", Spaced(&line.operands[..2]))?;
    let first = next_block(set, report::front(bytes, 384), 0, 0, &mut out);
    progress(rt, &first, &out)?;
    if let Ok((done, run)) = first {
        let second = next_block(set, report::part(bytes, 384, 384), done, run, &mut out);
        progress(rt, &second, &out)?;
    }
    println!(rt)
}

// The seed at a place.
fn seed_at(bytes: &[u8], place: usize) -> [u8; 32] {
    let mut seed = [0u8; 32];
    report::repeat(&mut seed, report::part(bytes, place, 32));
    seed
}

// A residue modulo q, written as the negative number that it is congruent to where it is above `half`.
#[derive(Drop)]
struct Centred {
    residue: u32,
    half: u32,
    q: u32,
}

impl Display for Centred {
    fn fmt<W: fmt::Write>(&self, f: &mut fmt::Formatter<W>) -> fmt::Result {
        let Centred { residue, half, q } = *self;
        if half < residue && residue <= q {
            write!(f, "-{}", q - residue)
        } else {
            write!(f, "{residue}")
        }
    }
}

// Whether a line asks for some of the numbers drawn.
fn has_part(line: Line) -> bool {
    0 < line.operands[6]
}

// Prints those.
fn print_part(rt: &impl Print, line: Line, out: &[u32]) -> io::Result<()> {
    let [set, _, _, _, _, from, count, half, ..] = line.operands;
    let half = script::low_word(half);
    let q = parameters(set).q;
    for residue in report::part(out, from, count) {
        let residue = *residue;
        print!(rt; " {}", Centred { residue, half, q })?;
    }
    Ok(())
}

// Residues: set, block size, first counter and results wanted. The checksum covers the numbers past the results too, which stay as they were.
pub fn residues(rt: &impl Print, line: Line, bytes: &[u8]) -> io::Result<()> {
    let [set, size, first, wanted, place, ..] = line.operands;
    let seed = seed_at(bytes, place);
    let mut out = [7u32; 10240];
    let given = residues_into(set, &seed, size, script::low_word(first), wanted, &mut out);
    if has_part(line) {
        return print_part(rt, line, &out);
    }
    print!(rt; "residues{}", Spaced(&line.operands[..4]))?;
    advance(rt, given)?;
    println!(rt; " {}", report::checksum(&out))
}

// A draw that is never refused, from the seed of a line over 7s, by its name, how many operands it is told, and the call.
fn drawn<F: FnOnce(&[u8; 32], &mut [u32; 10240])>(
    rt: &impl Print,
    name: &str,
    told: usize,
    line: Line,
    bytes: &[u8],
    draw: F,
) -> io::Result<()>
    requires { F.IsAlwaysCallable draw }
{
    let seed = seed_at(bytes, line.operands[4]);
    let mut out = [7u32; 10240];
    draw(&seed, &mut out);
    if has_part(line) {
        return print_part(rt, line, &out);
    }
    println!(rt;
        "{name}{} {}",
        Spaced(report::front(&line.operands, told)),
        report::checksum(&out)
    )
}

// The errors of one key: set and counter.
pub fn errors(rt: &impl Print, line: Line, bytes: &[u8]) -> io::Result<()> {
    let [set, counter, ..] = line.operands;
    drawn(rt, "errors", 2, line, bytes, |seed, out| {
        errors_into(set, seed, script::low_word(counter), out)
    })
}

// The multipliers of one sealing: set.
pub fn multipliers(rt: &impl Print, line: Line, bytes: &[u8]) -> io::Result<()> {
    let set = line.operands[0];
    drawn(rt, "multipliers", 1, line, bytes, |seed, out| {
        multipliers_into(set, seed, out)
    })
}
