// Runs a script of the arithmetic layer: key, sealing and reading on numbers, the middle products and the transforms, whole and partial. Two stores hold
// what the calls are given: residues and bits, and signed numbers.
#![tactic(auto)]

mod fills;
mod open;
mod vectors;

use report::script::{Line, Script};
use std::io;
use std::io::Read;
use vectors::Transform;

// Where the calls find polynomials a, a secret, a key, a message and the two parts of what was sealed.
const A: usize = 0;

const S: usize = 16400;

const B: usize = 19800;

const MESSAGE: usize = 30100;

const C1: usize = 30400;

const C2: usize = 33500;

// Where they find errors and multipliers among the signed numbers.
const E: usize = 0;

const R: usize = 10300;

// How many numbers there are.
const END: usize = 33800;

// What a line asks for.
#[derive(Clone, Copy)]
enum Command {
    Text,
    Residues,
    RandomResidues,
    Put,
    PutSigned,
    RepeatSigned,
    RandomSigned,
    Plain,
    Transformed,
    Key,
    Sealing,
    Reading,
    Transform(Transform),
    Correlation,
    Partial,
    PartialInverse,
    // the same without its name, which is what a line with any other number makes
    Unnamed,
}

// The first number of a line tells.
impl From<usize> for Command {
    fn from(number: usize) -> Command {
        match number {
            0 => Command::Text,
            1 => Command::Residues,
            2 => Command::RandomResidues,
            3 => Command::Put,
            4 => Command::PutSigned,
            5 => Command::RepeatSigned,
            6 => Command::RandomSigned,
            7 => Command::Plain,
            8 => Command::Transformed,
            9 => Command::Key,
            10 => Command::Sealing,
            11 => Command::Reading,
            12 => Command::Transform(Transform::Send),
            13 => Command::Transform(Transform::SendInverse),
            14 => Command::Transform(Transform::Recover),
            15 => Command::Transform(Transform::RecoverInverse),
            16 => Command::Correlation,
            17 => Command::Partial,
            18 => Command::PartialInverse,
            _ => Command::Unnamed,
        }
    }
}

// Runs one line of the script.
fn step(rt: &impl Print, line: Line, numbers: &mut [u32], signed: &mut [i32]) -> io::Result<()> {
    match Command::from(line.command) {
        Command::Text => line.print_text(rt)?,
        Command::Residues => fills::residues(line, numbers),
        Command::RandomResidues => fills::random_residues(line, numbers),
        Command::Put => fills::put(line, numbers),
        Command::PutSigned => fills::put_signed(line, signed),
        Command::RepeatSigned => fills::repeat_signed(line, signed),
        Command::RandomSigned => fills::random_signed(line, signed),
        Command::Plain => open::plain(rt, line, numbers)?,
        Command::Transformed => open::transformed(rt, line, numbers)?,
        Command::Key => open::key(rt, line, numbers, signed)?,
        Command::Sealing => open::sealing(rt, line, numbers, signed)?,
        Command::Reading => open::reading(rt, line, numbers)?,
        Command::Transform(transform) => vectors::transform_stored(rt, transform, line, numbers)?,
        Command::Correlation => vectors::correlation(rt, line, numbers)?,
        Command::Partial => {
            let told = &line.operands[..6];
            open::partial(
                rt,
                "partial_transform",
                told,
                line,
                numbers,
                ntt_partial::forward,
            )?
        }
        Command::PartialInverse => {
            let told = &line.operands[..6];
            open::partial(
                rt,
                "partial_inverse",
                told,
                line,
                numbers,
                ntt_partial::inverse,
            )?
        }
        Command::Unnamed => open::partial(rt, "", &[], line, numbers, ntt_partial::inverse)?,
    }
    Ok(())
}

// Runs every line, of at most a million.
fn run<R: Read + Drop>(
    rt: &impl Print,
    input: R,
    numbers: &mut [u32],
    signed: &mut [i32],
) -> io::Result<()> {
    for line in Script::new(input).take(1000000) {
        step(rt, line?, numbers, signed)?;
    }
    Ok(())
}

fn main(rt: HostRuntime) -> io::Result<()> {
    let mut numbers = [0u32; END];
    let mut signed = [0i32; 18500];
    run(&rt, rt.stdin(), &mut numbers, &mut signed)
}
