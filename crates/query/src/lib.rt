// The program of 01, "One whole file": question lines answered from a file.
#![tactic(auto)]

ghost use Rattle.std.specs.Prelude.{◌≤◌, length};

use lines::Gathered;
use std::io::{Read, Write};
use std::rt::Files;
use std::{fs, str};

// Reads until there is no more room, the input ends or a read fails, and gives how many bytes came.
fn read_full<R: Read>(from: &mut R, room: &mut [u8]) -> usize
    ensures { result ≤ length room.new }
{
    let mut n = 0;
    while n < room.len() {
        let m = read_block(from, &mut room[n..]);
        if m == 0 {
            return n;
        }
        n += m;
    }
    n
}

// Reads the file at `path` as far as there is room, and gives how many bytes came. A missing file counts as no bytes.
fn read_file<F: Files>(files: &F, path: &[u8], room: &mut [u8]) -> usize
    ensures { result ≤ length room.new }
{
    match str::from_utf8(path) {
        Ok(name) => match fs::open(files, name) {
            Ok(mut file) => read_full(&mut file, room),
            Err(_) => 0,
        },
        Err(_) => 0,
    }
}

// Writes the reply to a question line, as far as `to` takes it. `out` has room for every reply.
fn answer<W: Write>(s: &[u8], line: &[u8], out: &mut [u8], to: &mut W) {
    match line_replies::reply(s, line, out) {
        Ok(n) => {
            let _ = to.write_all(&out[..n]);
        }
        Err(_) => {}
    }
}

// Answers the lines that end in a block, behind the n bytes that are held, and gives how many bytes are held then.
fn answer_block<W: Write>(
    s: &[u8],
    block: &[u8],
    held: &mut [u8],
    n: usize,
    out: &mut [u8],
    to: &mut W,
) -> usize
    requires { n ≤ length held.old }
    ensures { result ≤ length held.new }
{
    let mut begun = n;
    let mut at = 0;
    while at < block.len() {
        match gathered_lines::gather(&block[at..], held, begun) {
            Gathered::Whole(m, used) => {
                answer(s, &held[..m], out, to);
                begun = 0;
                at += used;
            }
            Gathered::Begun(m) => return m,
        }
    }
    begun
}

// Reads a block, and gives how many bytes came: none where the input has ended or the read fails.
fn read_block<R: Read>(from: &mut R, block: &mut [u8]) -> usize
    ensures { result ≤ length block.new }
{
    match from.read(block) {
        Ok(n) => n,
        Err(_) => 0,
    }
}

// Answers the last line, where the input ends without a line feed.
fn answer_last<W: Write>(s: &[u8], held: &[u8], n: usize, out: &mut [u8], to: &mut W)
    requires { n ≤ length held.now }
{
    if 0 < n {
        answer(s, &held[..n], out, to);
    }
}

// Answers all lines that come from `from`. A proved loop has to end, so this one ends after a number of turns that no run uses up.
fn answer_blocks<R: Read, W: Write>(
    s: &[u8],
    block: &mut [u8],
    held: &mut [u8],
    out: &mut [u8],
    from: &mut R,
    to: &mut W,
) {
    let mut n = 0;
    for _ in 0..u64::MAX {
        let m = read_block(from, block);
        if m == 0 {
            answer_last(s, held, n, out, to);
            return;
        }
        n = answer_block(s, &block[..m], held, n, out, to);
    }
}

// Answers the question lines that come from `from` with the file at `path`, and writes the replies to `to`.
// A byte more than the largest file tells a longer one, 2,049 bytes tell a line that is too long, and 65,605 hold every reply.
pub fn answer_all<F: Files, R: Read, W: Write>(files: &F, path: &[u8], from: &mut R, to: &mut W) {
    let mut file = [0u8; 65537];
    let n = read_file(files, path, &mut file);
    let mut block = [0u8; 4096];
    let mut held = [0u8; 2049];
    let mut out = [0u8; 65605];
    answer_blocks(&file[..n], &mut block, &mut held, &mut out, from, to);
}
