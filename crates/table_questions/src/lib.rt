// A question over a table of answers: the row that holds the tick, found by halving, without the file; or the question on the zone.
#![tactic(auto)]

ghost use Rattle.std.specs.Prelude.{◌≡◌, ◌*◌, ◌/◌, ◌≤◌, ◌<◌, length};
ghost use Rattle.halving.specs.Looks.{Near, Due};
ghost use Rattle.answer_tables.specs.Table.{natural, kept_row, ask_listed};
ghost use Rattle.table_questions.specs.View.{Seeks, Looked, LeftRow};

use answers::Found;
use base::{Fault, Refusal};
use found_zones::FoundZone;
use zones::Edition;

// A place or a length out of a row; 0 for a number below 0.
fn count_of(z: i64) -> usize
    ensures { result ≡ natural z }
{
    if z < 0 {
        return 0;
    }
    z as usize
}

// The rows left: the place of the first of them in the table, and how many there are.
#[derive(Clone, Copy)]
pub struct Rows {
    pub at: usize,
    pub left: usize,
}

// One look. That the place has all seven numbers of a row counted takes less time than a product for each look.
fn look(rows: &[i64], b: Rows, ticks: i64) -> Rows
    requires { Seeks rows.now ticks b × (1 < b.left) }
    ensures { Looked rows.now ticks b.left result }
{
    let half = b.left / 2;
    let at = b.at + 7 * half;
    if rows[at + 5] <= ticks {
        return Rows {
            at: at,
            left: b.left - half,
        };
    }
    Rows {
        at: b.at,
        left: half,
    }
}

// The look that n rows have where they are twice as many as half, or more.
fn look_due(rows: &[i64], b: Rows, ticks: i64, n: usize, half: usize) -> Rows
    requires { Seeks rows.now ticks b × (Due n (2 * half) b.left × ((0 < half) × (half ≤ 2048))) }
    ensures { Seeks rows.now ticks result × Due n half result.left }
{
    if n < 2 * half {
        return b;
    }
    look(rows, b, ticks)
}

// The looks that leave 64 rows at most.
fn look_many(rows: &[i64], b: Rows, ticks: i64, n: usize) -> Rows
    requires { Seeks rows.now ticks b × (Near n b.left × (n ≤ 8191)) }
    ensures { Seeks rows.now ticks result × Due n 32 result.left }
{
    if n < 64 {
        return b;
    }
    let b1 = look_due(rows, b, ticks, n, 2048);
    let b2 = look_due(rows, b1, ticks, n, 1024);
    let b3 = look_due(rows, b2, ticks, n, 512);
    let b4 = look_due(rows, b3, ticks, n, 256);
    let b5 = look_due(rows, b4, ticks, n, 128);
    let b6 = look_due(rows, b5, ticks, n, 64);
    look_due(rows, b6, ticks, n, 32)
}

// The looks that leave two rows at most.
fn look_few(rows: &[i64], b: Rows, ticks: i64, n: usize) -> Rows
    requires { Seeks rows.now ticks b × Due n 32 b.left }
    ensures { Seeks rows.now ticks result × (result.left ≤ 2) }
{
    let b1 = look_due(rows, b, ticks, n, 16);
    let b2 = look_due(rows, b1, ticks, n, 8);
    let b3 = look_due(rows, b2, ticks, n, 4);
    let b4 = look_due(rows, b3, ticks, n, 2);
    look_due(rows, b4, ticks, n, 1)
}

// The last look, which is none where one row is left.
fn look_last(rows: &[i64], b: Rows, ticks: i64) -> usize
    requires { Seeks rows.now ticks b × (b.left ≤ 2) }
    ensures { LeftRow rows.now ticks result }
{
    let half = b.left / 2;
    let at = b.at + 7 * half;
    if rows[at + 5] <= ticks {
        return at;
    }
    b.at
}

// The place of the row that halving leaves of n rows, by their starts: halving::find_start over every seventh number.
fn find_row(rows: &[i64], n: usize, ticks: i64) -> usize
    requires { (n ≡ length rows.now / 7) × (0 < n) }
    ensures { LeftRow rows.now ticks result }
{
    let mut b = Rows { at: 0, left: n };
    let mut m = n;
    while 8191 < m {
        b = look(rows, b, ticks);
        m = m / 2;
    }
    let many = look_many(rows, b, ticks, m);
    let few = look_few(rows, many, ticks, m);
    look_last(rows, few, ticks)
}

// The row at a place, if it holds the tick and its name is a part of n bytes. Each number is read behind the test before it, so that a test is a
// branch of its own.
fn row_at(n: usize, rows: &[i64], at: usize, ticks: i64) -> Option<Found>
    requires { LeftRow rows.now ticks at }
    ensures { result ≡ kept_row n rows.now ticks }
{
    if rows[at + 5] <= ticks {
        if ticks < rows[at + 6] {
            let name = count_of(rows[at + 3]);
            if n < name {
                return None;
            }
            let length = count_of(rows[at + 4]);
            if n - name < length {
                return None;
            }
            return Some(Found {
                wall: rows[at],
                savings: rows[at + 1],
                standard: rows[at + 2],
                name: name,
                length: length,
                start: rows[at + 5],
                end: rows[at + 6],
            });
        }
        return None;
    }
    None
}

// The row that holds the tick, if its name is a part of n bytes.
fn kept_row(n: usize, rows: &[i64], ticks: i64) -> Option<Found>
    ensures { result ≡ kept_row n rows.now ticks }
{
    let count = rows.len() / 7;
    if count == 0 {
        return None;
    }
    let at = find_row(rows, count, ticks);
    row_at(n, rows, at, ticks)
}

// The question over a table of the zone's answers, whatever its rows are. The file is read only where no row holds the tick.
pub fn ask_listed(
    file: &[u8],
    v: FoundZone,
    rows: &[i64],
    ticks: i64,
    edition: Edition,
) -> Result<Found, Fault>
    ensures { result ≡ ask_listed file.now v rows.now ticks edition }
{
    if signed::instant(ticks) == 0 {
        return Err((Refusal::OutOfRange, 0));
    }
    match kept_row(file.len(), rows, ticks) {
        Some(x) => Ok(x),
        None => found_zones::ask_zone(file, v, ticks, edition),
    }
}
