// The noise sheet, and sealings of set 0 at a bound of its noise.
use report::script::Line;
use report::{Spaced, checksum};
use std::io;

// The sheet of an input in the store. A line has whether the sheet itself is printed or what the call answers and leaves, and the lengths of the input, the
// text slice and the work slice. The checksums cover what lies behind the two slices too.
pub fn print_sheet(rt: &impl Print, line: Line, store: &[u8]) -> io::Result<()> {
    let [what, input, lent_text, lent_work, ..] = line.operands;
    let mut text = [7u8; 1025];
    let mut work = [7u32; 22522];
    let written = sheet::sheet(
        report::front(store, input),
        report::front_mut(&mut text, lent_text),
        report::front_mut(&mut work, lent_work),
    );
    if what == 0 {
        return rt.write_all(report::front(&text, written));
    }
    println!(rt;
        "lent {lent_text} {lent_work} {written} {} {}",
        checksum(&text),
        checksum(&work)
    )
}

// A sealing of two bits 0 with multipliers 1 and 1: checksums of c1 and c2, and the two bits that are read. Its key is that of 01's bench figures with
// another number at its second place; a line has that number.
pub fn print_bound(rt: &impl Print, number: usize) -> io::Result<()> {
    let b = [11u32, (number % 17) as u32, 10];
    let mut c1 = [0u32; 3];
    let mut c2 = [0u32; 2];
    let mut bits = [0u32; 2];
    report::answer(
        rt,
        numbers_sealing::sealing(0, &[3, 5], &b, &[1, 1], &[0, 0], &mut c1, &mut c2),
    )?;
    report::answer(
        rt,
        numbers_reading::reading(0, &c1, &c2, &[1, 2, 3, 4], &mut bits),
    )?;
    println!(rt; " {} {}{}", checksum(&c1), checksum(&c2), Spaced(&bits))
}
