// The draws over lent bytes, the first of the store. The checksums cover the numbers past the results too, which stay as they were.
use report::script::Line;
use std::io;

// Residues: set, bytes lent, results wanted, and the first candidate that is set aside and how many are.
pub fn residues(rt: &impl Print, line: Line, bytes: &[u8]) -> io::Result<()> {
    let [set, lent, wanted, ..] = line.operands;
    let mut out = [7u32; 4097];
    let answer = lent_draws::residues(
        set,
        report::front(bytes, lent),
        report::front_mut(&mut out, wanted),
    );
    report::call_and_answer(rt, "residues", &line.operands[..5], answer)?;
    println!(rt; " {}", report::checksum(&out))
}

// Errors: set, bytes lent and results wanted.
fn errors(rt: &impl Print, line: Line, bytes: &[u8], out: &mut [i32]) -> io::Result<()> {
    let [set, lent, wanted, ..] = line.operands;
    let answer = lent_draws::errors(
        set,
        report::front(bytes, lent),
        report::front_mut(out, wanted),
    );
    report::call_and_answer(rt, "errors", &line.operands[..3], answer)?;
    println!(rt; " {}", report::checksum(out))
}

// Multipliers: set, bytes lent, first position and results wanted, which stand after those of the errors.
fn multipliers(rt: &impl Print, line: Line, bytes: &[u8], out: &mut [i32]) -> io::Result<()> {
    let [_, _, _, set, lent, first, wanted, ..] = line.operands;
    let answer = lent_draws::multipliers(
        set,
        report::front(bytes, lent),
        first,
        report::front_mut(out, wanted),
    );
    report::call_and_answer(rt, "multipliers", &line.operands[3..7], answer)?;
    println!(rt; " {}", report::checksum(out))
}

// The draws of signed numbers that a line asks for.
#[derive(Clone, Copy)]
pub enum Draws {
    Errors,
    Multipliers,
    Both,
}

// Errors, multipliers, or multipliers over errors, over 7s.
pub fn signed(rt: &impl Print, draws: Draws, line: Line, bytes: &[u8]) -> io::Result<()> {
    let mut out = [7i32; 4097];
    match draws {
        Draws::Errors => errors(rt, line, bytes, &mut out),
        Draws::Multipliers => multipliers(rt, line, bytes, &mut out),
        Draws::Both => {
            errors(rt, line, bytes, &mut out)?;
            multipliers(rt, line, bytes, &mut out)
        }
    }
}
