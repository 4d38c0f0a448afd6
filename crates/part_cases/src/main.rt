// Runs the stored cases of parts of files, by functions that the archive doesn't have. The first word of a line says which, and the module of that
// name has what the words behind it are and what is written: one line for each. One program for all of them, since the check of any takes in what they share.
#![tactic(auto)]

ghost use Rattle.std.specs.Prelude.{◌≤◌, length};

mod cases;
mod hex;
mod pin_cases;
mod pool_cases;
mod tail_cases;
mod text_cases;
mod zone_cases;

use std::io::{Read, Write};

fn run_words<W: Write>(to: &mut W, word: &[u8], line: &[u8], buf: &mut [u8]) {
    match word {
        b"pin" => pin_cases::run_line(to, line),
        b"pool" => pool_cases::run_line(to, line, buf),
        b"tail" => tail_cases::run_line(to, line),
        b"text" => text_cases::run_line(to, line),
        b"zone" => zone_cases::run_line(to, line, buf),
        _ => {}
    }
}

fn run_line<W: Write>(to: &mut W, line: &[u8], buf: &mut [u8]) {
    run_words(to, hex::text(line, 0), hex::behind(line), buf);
}

fn run_all<W: Write>(to: &mut W, s: &[u8], buf: &mut [u8]) {
    let mut at: usize = 0;
    while at < s.len() {
        let e = hex::find(s, at, 10);
        run_line(to, &s[at..e], buf);
        at = e + 1;
    }
}

// Reads until there is no more room, the input ends or a read fails, and gives how many bytes came.
fn read_full<R: Read>(from: &mut R, room: &mut [u8]) -> usize
    ensures { result ≤ length room.new }
{
    let mut n = 0;
    while n < room.len() {
        let m = match from.read(&mut room[n..]) {
            Ok(m) => m,
            Err(_) => 0,
        };
        if m == 0 {
            return n;
        }
        n += m;
    }
    n
}

fn main(rt: HostRuntime) {
    let mut input = [0u8; 262144];
    let mut buf = [0u8; 65536];
    let n = read_full(&mut rt.stdin(), &mut input);
    run_all(&mut rt.stdout(), &input[..n], &mut buf);
}
