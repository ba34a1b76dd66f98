// The open calls: the middle product, plain and transformed, key, sealing and reading on numbers, and the partial transforms. A line has the set, what else a
// call is told, and the lengths of the slices. A call writes over 7s; its answer and the checksums of what it was lent are printed.
use calls::Answer;
use report::script::Line;
use std::io;

// The plain middle product of a and b.
pub fn plain(rt: &impl Print, line: Line, numbers: &[u32]) -> io::Result<()> {
    let [set, a, b, written, ..] = line.operands;
    let mut out = [7u32; 4097];
    let answer = middle::middle_product(
        set,
        report::part(numbers, crate::A, a),
        report::part(numbers, crate::B, b),
        report::front_mut(&mut out, written),
    );
    report::call_and_answer(rt, "plain", &line.operands[..4], answer)?;
    println!(rt; " {}", report::checksum(&out))
}

// The same transformed.
pub fn transformed(rt: &impl Print, line: Line, numbers: &[u32]) -> io::Result<()> {
    let [set, a, b, written, lent, ..] = line.operands;
    let mut out = [7u32; 4097];
    let mut work = [7u32; 4097];
    let answer = ntt_middle::middle_product(
        set,
        report::part(numbers, crate::A, a),
        report::part(numbers, crate::B, b),
        report::front_mut(&mut out, written),
        report::front_mut(&mut work, lent),
    );
    report::call_and_answer(rt, "transformed", &line.operands[..5], answer)?;
    println!(rt; " {} {}", report::checksum(&out), report::checksum(&work))
}

// Key of a, s and e; b is kept.
pub fn key(rt: &impl Print, line: Line, numbers: &mut [u32], signed: &[i32]) -> io::Result<()> {
    let [set, a, s, e, written, ..] = line.operands;
    let mut b = [7u32; 10233];
    let answer = numbers_key::key(
        set,
        report::part(numbers, crate::A, a),
        report::part(numbers, crate::S, s),
        report::part(signed, crate::E, e),
        report::front_mut(&mut b, written),
    );
    report::call_and_answer(rt, "key", &line.operands[..5], answer)?;
    println!(rt; " {}", report::checksum(&b))?;
    report::repeat(report::part_mut(numbers, crate::B, 10233), &b);
    Ok(())
}

// Sealing of a message with a, b and r; c1 and c2 are kept.
pub fn sealing(rt: &impl Print, line: Line, numbers: &mut [u32], signed: &[i32]) -> io::Result<()> {
    let [set, a, b, r, message, first, second, ..] = line.operands;
    let mut c1 = [7u32; 3072];
    let mut c2 = [7u32; 257];
    let answer = numbers_sealing::sealing(
        set,
        report::part(numbers, crate::A, a),
        report::part(numbers, crate::B, b),
        report::part(signed, crate::R, r),
        report::part(numbers, crate::MESSAGE, message),
        report::front_mut(&mut c1, first),
        report::front_mut(&mut c2, second),
    );
    report::call_and_answer(rt, "sealing", &line.operands[..7], answer)?;
    println!(rt; " {} {}", report::checksum(&c1), report::checksum(&c2))?;
    report::repeat(report::part_mut(numbers, crate::C1, 3072), &c1);
    report::repeat(report::part_mut(numbers, crate::C2, 257), &c2);
    Ok(())
}

// Reading of c1 and c2 with s.
pub fn reading(rt: &impl Print, line: Line, numbers: &[u32]) -> io::Result<()> {
    let [set, c1, c2, s, written, ..] = line.operands;
    let mut bits = [7u32; 257];
    let answer = numbers_reading::reading(
        set,
        report::part(numbers, crate::C1, c1),
        report::part(numbers, crate::C2, c2),
        report::part(numbers, crate::S, s),
        report::front_mut(&mut bits, written),
    );
    report::call_and_answer(rt, "reading", &line.operands[..5], answer)?;
    println!(rt; " {}", report::checksum(&bits))
}

// A partial transform of a in rows and columns, by its name, what is printed that it was told, and the call.
pub fn partial<F: FnOnce(usize, usize, usize, usize, &[u32], &mut [u32]) -> Answer>(
    rt: &impl Print,
    name: &str,
    told: &[usize],
    line: Line,
    numbers: &[u32],
    transform: F,
) -> io::Result<()>
    requires { F.IsAlwaysCallable transform }
{
    let [set, rows, row, m, a, written, ..] = line.operands;
    let mut out = [7u32; 4097];
    let answer = transform(
        set,
        rows,
        row,
        m,
        report::part(numbers, crate::A, a),
        report::front_mut(&mut out, written),
    );
    report::call_and_answer(rt, name, told, answer)?;
    println!(rt; " {}", report::checksum(&out))
}
