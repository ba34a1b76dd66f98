// The lines of the sheet (01, The bench sheet), each appended to the text so far.
ghost use Rattle.std.specs.Prelude.{◌+◌, ◌≤◌, ◌<◌, ◌^◌, nat_abs, length};
ghost use Rattle.sheet_text.specs.Text.{row, rows, last_line, sheet_text};
ghost use Rattle.sheet_text.specs.Written.{Appended, Sealing};
ghost use Rattle.sheet_order.specs.Sorting.{Places};

use crate::append::Text;
use sheet_order::{order_places, shown_count};

// The row of a place.
fn put_row(place: usize, noise: i64, sent: u32, read: u32, text: &mut Text)
    requires { (nat_abs noise < 2 ^ 62) × (length text.old + length (row place noise sent read) ≤ 1024) }
    ensures { Appended text.old (row place noise sent read) text.new }
{
    text.push_number(place as u64, b' ');
    text.push_signed(noise, b' ');
    text.push_number(sent as u64, b' ');
    text.push_number(read as u64, b'\n');
}

// The rows of these places.
fn put_rows(noise: &[i64], sent: &[u32], read: &[u32], places: &[usize], text: &mut Text)
    requires { Sealing noise.now sent.now read.now × Places places.now (length noise.now)
        × (length text.old + length (rows noise.now sent.now read.now places.now) ≤ 1024) }
    ensures { Appended text.old (rows noise.now sent.now read.now places.now) text.new }
{
    for place in places {
        let place = *place;
        put_row(place, noise[place], sent[place], read[place], text);
    }
}

// The last line: the ceiling and the half modulus.
fn put_last_line(ceiling: u64, half: u64, text: &mut Text)
    requires { length text.old + length (last_line ceiling half) ≤ 1024 }
    ensures { Appended text.old (last_line ceiling half) text.new }
{
    text.push_bytes(b"ceiling ");
    text.push_decimal(ceiling);
    text.push_bytes(b" half ");
    text.push_number(half, b'\n');
}

// The whole sheet; `order` is lent for the order of the places.
pub fn put_sheet(
    noise: &[i64],
    sent: &[u32],
    read: &[u32],
    ceiling: u64,
    half: u64,
    order: &mut [usize],
    text: &mut Text,
)
    requires { Sealing noise.now sent.now read.now × (length noise.now ≤ length order.old)
        × (length text.old + length (sheet_text noise.now sent.now read.now ceiling half) ≤ 1024) }
    ensures { Appended text.old (sheet_text noise.now sent.now read.now ceiling half) text.new }
{
    order_places(noise, order);
    let count = shown_count(noise.len());
    text.push_bytes(b"place noise sent read\n");
    put_rows(noise, sent, read, &order[0..count], text);
    put_last_line(ceiling, half, text);
}
