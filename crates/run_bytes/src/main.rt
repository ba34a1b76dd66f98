// Runs a script of the bytes layer: SHAKE256 and KMAC, the draws over lent bytes and the draws from a seed. Two stores hold the bytes that the calls are
// given and those that the hashes write.
#![tactic(auto)]

mod lent;
mod seeded;
mod sponges;

use lent::Draws;
use report::script::{Line, Script};
use std::io;
use std::io::Read;

// What a part of a store is filled with: a pattern, one byte, or the random bytes of a group and a slice.
#[derive(Clone, Copy)]
enum Filling {
    Pattern,
    Byte,
    Random,
}

// What a line asks for.
#[derive(Clone, Copy)]
enum Command {
    Text,
    FillBytes(Filling),
    FillOut(Filling),
    Shake,
    Kmac,
    KmacXof,
    LentResidues,
    Lent(Draws),
    Residues,
    Errors,
    Multipliers,
    Blocks,
}

// The first number of a line tells.
impl From<usize> for Command {
    fn from(number: usize) -> Command {
        match number {
            0 => Command::Text,
            1 => Command::FillBytes(Filling::Pattern),
            2 => Command::FillBytes(Filling::Byte),
            3 => Command::FillBytes(Filling::Random),
            4 => Command::FillOut(Filling::Pattern),
            5 => Command::FillOut(Filling::Byte),
            6 => Command::Shake,
            7 => Command::Kmac,
            8 => Command::KmacXof,
            9 => Command::LentResidues,
            10 => Command::Lent(Draws::Errors),
            11 => Command::Lent(Draws::Multipliers),
            12 => Command::Lent(Draws::Both),
            13 => Command::Residues,
            14 => Command::Errors,
            15 => Command::Multipliers,
            _ => Command::Blocks,
        }
    }
}

// Fills a part of a store: a place, how many bytes, and what the filling is told.
fn fill(filling: Filling, line: Line, store: &mut [u8]) {
    let [place, count, told, slice, ..] = line.operands;
    let part = report::part_mut(store, place, count);
    match filling {
        Filling::Pattern => report::fill_bytes(part, told),
        Filling::Byte => part.fill(report::low_byte(told)),
        Filling::Random => report::random::fill(part, told, slice),
    }
}

// Runs one line of the script.
fn step(rt: &impl Print, line: Line, bytes: &mut [u8], out: &mut [u8]) -> io::Result<()> {
    match Command::from(line.command) {
        Command::Text => line.print_text(rt)?,
        Command::FillBytes(filling) => fill(filling, line, bytes),
        Command::FillOut(filling) => fill(filling, line, out),
        Command::Shake => sponges::shake(rt, line, bytes, out)?,
        Command::Kmac => sponges::keyed(rt, "kmac256", line, bytes, out, hashes::kmac256)?,
        Command::KmacXof => sponges::keyed(rt, "kmacxof256", line, bytes, out, hashes::kmacxof256)?,
        Command::LentResidues => lent::residues(rt, line, bytes)?,
        Command::Lent(draws) => lent::signed(rt, draws, line, bytes)?,
        Command::Residues => seeded::residues(rt, line, bytes)?,
        Command::Errors => seeded::errors(rt, line, bytes)?,
        Command::Multipliers => seeded::multipliers(rt, line, bytes)?,
        Command::Blocks => seeded::two_blocks(rt, line, bytes)?,
    }
    Ok(())
}

// Runs every line, of at most a million.
fn run<R: Read + Drop>(
    rt: &impl Print,
    input: R,
    bytes: &mut [u8],
    out: &mut [u8],
) -> io::Result<()> {
    for line in Script::new(input).take(1000000) {
        step(rt, line?, bytes, out)?;
    }
    Ok(())
}

fn main(rt: HostRuntime) -> io::Result<()> {
    let mut bytes = [0u8; 65537];
    let mut out = [0u8; 65537];
    run(&rt, rt.stdin(), &mut bytes, &mut out)
}
