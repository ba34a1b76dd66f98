// A script: lines of numbers, of which the first is a command and the others its operands. The comparison writes it beside what must be printed; a program
// reads it from standard input, and holds no more of it than a line.
use std::io;
use std::io::{Bytes, Read};

// What follows a number: another of its line, the next line, or the end of the script.
#[derive(Clone, Copy, PartialEq, Eq)]
enum Next {
    Number,
    Line,
    End,
}

// The byte that ends a number tells.
impl From<u8> for Next {
    fn from(byte: u8) -> Next {
        match byte {
            0 => Next::End,
            1..b' ' => Next::Line,
            _ => Next::Number,
        }
    }
}

// A number with one digit more, or the largest number of 64 bits from 18,446,744,073,709,551,610 on.
// The digits by hand, since `str::parse` refuses what a program takes: any byte from `0` on is a digit, and a number that is too large is the largest one.
fn with_digit(value: usize, digit: u8) -> usize {
    if 1844674407370955161 <= value {
        return usize::MAX;
    }
    value * 10 + usize::from(digit % 16)
}

// The next number. A byte below those of the digits ends it; so do the end of the input and 32 digits, which no number has: they end the script too.
fn next_number<R: Read + Drop>(bytes: &mut Bytes<R>) -> io::Result<(usize, Next)> {
    let mut value = 0;
    for byte in bytes.by_ref().take(32) {
        match byte? {
            digit @ b'0'.. => value = with_digit(value, digit),
            end => return Ok((value, Next::from(end))),
        }
    }
    Ok((value, Next::End))
}

// A command and its operands, with zeros after them.
#[derive(Clone, Copy)]
pub struct Line {
    pub command: usize,
    pub operands: [usize; 15],
}

impl Line {
    // Prints the text whose bytes the operands are, up to the first 0.
    pub fn print_text(self, rt: &impl Print) -> io::Result<()> {
        for operand in self.operands.iter().take_while(|x| **x != 0) {
            rt.write_all(&[crate::low_byte(*operand)])?;
        }
        Ok(())
    }
}

// The next line, of at most 16 numbers; none at the end of the script.
fn line_of<R: Read + Drop>(bytes: &mut Bytes<R>) -> io::Result<Option<Line>> {
    let (command, mut next) = next_number(bytes)?;
    let mut operands = [0; 15];
    for operand in operands.iter_mut() {
        if next != Next::Number {
            break;
        }
        (*operand, next) = next_number(bytes)?;
    }
    Ok((next == Next::Line).then_some(Line { command, operands }))
}

// The next line that a reader holds.
pub fn next_line(input: &mut impl Read) -> io::Result<Option<Line>> {
    line_of(&mut input.bytes())
}

// The lines of a script that a reader holds.
#[derive(Drop)]
pub struct Script<R> {
    bytes: Bytes<R>,
}

impl<R: Read + Drop> Script<R> {
    pub fn new(input: R) -> Script<R> {
        Script {
            bytes: input.bytes(),
        }
    }
}

impl<R: Read + Drop> Iterator for Script<R> {
    type Item = io::Result<Line>;

    fn next(&mut self) -> Option<io::Result<Line>> {
        line_of(&mut self.bytes).transpose()
    }
}

// The lowest 32 bits of an operand.
pub fn low_word(x: usize) -> u32 {
    (x % 4294967296) as u32
}
