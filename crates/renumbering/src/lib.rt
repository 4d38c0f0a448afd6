// The mentions of a field counted, and its data with new pool numbers: how long they are, and the writing of them.
#![tactic(auto)]

ghost use Rattle.std.specs.Prelude.{◌≡◌, ◌++◌, ◌≤◌, length, drop};
ghost use Rattle.counts.specs.Count.{write_count};
ghost use Rattle.pieces.specs.View.{Put};
ghost use Rattle.use_order.specs.Order.{new_number, mention_all};
ghost use Rattle.mentions.specs.declared.Stage.TheVariants.{Interval, Names};
ghost use Rattle.mentions.specs.Content.{content_at, print, numbers_of, renumbered};
ghost use Rattle.renumbering.specs.Run.{Small, MeasuredRun, WrittenRun};
ghost use Rattle.renumbering.specs.Table.{Fits};

use mentions::Stage;

// The new number of k.
pub fn renumber(table: &[u32], k: usize) -> u64
    ensures { result ≡ new_number table.now k }
{
    if k < table.len() {
        return table[k] as u64;
    }
    0
}

// Behind the name of an interval: its start, how many follow, and the length of what is renumbered.
#[derive(Clone, Copy)]
pub struct SizedRun {
    pub place: usize,
    pub start: u64,
    pub left: u64,
    pub size: usize,
}

// The length of the intervals that follow, up to and with the last name.
fn size_intervals(s: &[u8], at: usize, start: u64, left: u64, table: &[u32]) -> SizedRun
    requires { (at ≤ length s.now) × (length s.now ≤ 4194304) }
    ensures { MeasuredRun (new_number table.now) s.now at (Interval start left) result.place (Interval result.start result.left) result.size }
{
    let mut place = at;
    let mut last = start;
    let mut n = left;
    let mut size: usize = 0;
    while 0 < n {
        let next = zone_mentions::next_start(s, place, last);
        let p = next.place;
        if p == 0 {
            return SizedRun {
                place: place,
                start: last,
                left: n,
                size: size,
            };
        }
        match places::count_at(s, p) {
            Err(_) => {
                return SizedRun {
                    place: place,
                    start: last,
                    left: n,
                    size: size,
                };
            }
            Ok((v, e)) => {
                let k = renumber(table, v as usize);
                size += (p - place) + count_writers::count_size(k);
                place = e;
                last = next.start;
                n -= 1;
            }
        }
    }
    SizedRun {
        place: place,
        start: last,
        left: n,
        size: size,
    }
}

// Before so many names, with the length of what is renumbered.
#[derive(Clone, Copy)]
pub struct SizedRow {
    pub place: usize,
    pub left: u64,
    pub size: usize,
}

// The length of the names in a row at a place.
fn size_names(
    s: &[u8],
    at: usize,
    left: u64,
    locations: u64,
    numbered: bool,
    table: &[u32],
) -> SizedRow
    requires { (at ≤ length s.now) × (length s.now ≤ 4194304) }
    ensures { MeasuredRun (new_number table.now) s.now at (Names left locations numbered) result.place (Names result.left locations numbered) result.size }
{
    let mut place = at;
    let mut n = left;
    let mut size: usize = 0;
    while 0 < n {
        match places::count_at(s, place) {
            Err(_) => {
                return SizedRow {
                    place: place,
                    left: n,
                    size: size,
                };
            }
            Ok((v, e)) => {
                let k = renumber(table, v as usize);
                size += count_writers::count_size(k);
                place = e;
                n -= 1;
            }
        }
    }
    SizedRow {
        place: place,
        left: n,
        size: size,
    }
}

// A place and the stage there, with the length of what is renumbered.
#[derive(Clone, Copy)]
pub struct SizedStage {
    pub place: usize,
    pub stage: Stage,
    pub size: usize,
}

// The length of the run that follows a stage at a place, if any.
pub fn size_run(s: &[u8], at: usize, stage: Stage, table: &[u32]) -> SizedStage
    requires { (at ≤ length s.now) × (length s.now ≤ 4194304) }
    ensures { MeasuredRun (new_number table.now) s.now at stage result.place result.stage result.size }
{
    match stage {
        Stage::Interval(start, left) => {
            let r = size_intervals(s, at, start, left, table);
            SizedStage {
                place: r.place,
                stage: Stage::Interval(r.start, r.left),
                size: r.size,
            }
        }
        Stage::Names(n, locations, numbered) => {
            let r = size_names(s, at, n, locations, numbered, table);
            SizedStage {
                place: r.place,
                stage: Stage::Names(r.left, locations, numbered),
                size: r.size,
            }
        }
        _ => SizedStage {
            place: at,
            stage: stage,
            size: 0,
        },
    }
}

// Writes a number as a count.
pub fn write_number(v: u64, out: &mut [u8]) -> usize
    requires { (v ≤ 2147483647) × (length (write_count v) ≤ length out.old) }
    ensures { Put (write_count v) out.old result out.new }
{
    match count_writers::write_count(v, out) {
        Err(_) => 0,
        Ok(n) => n,
    }
}

// Writes the bytes before a mention, and its number.
pub fn write_mention(s: &[u8], v: u64, out: &mut [u8]) -> usize
    requires { (v ≤ 2147483647) × (length (s.now ++ write_count v) ≤ length out.old) }
    ensures { Put (s.now ++ write_count v) out.old result out.new }
{
    let k = slices::copy(s, out);
    k + write_number(v, &mut out[k..])
}

// Writes the intervals that follow, up to and with the last name.
fn write_intervals(
    s: &[u8],
    at: usize,
    start: u64,
    left: u64,
    table: &[u32],
    out: &mut [u8],
) -> SizedRun
    requires { (at ≤ length s.now) × Small table.now × (length (print (new_number table.now) (content_at (Interval start left) (drop at s.now))) ≤ length out.old) }
    ensures { WrittenRun (new_number table.now) s.now at (Interval start left) out.old result.place (Interval result.start result.left) result.size out.new }
{
    let mut place = at;
    let mut last = start;
    let mut n = left;
    let mut w: usize = 0;
    while 0 < n {
        let next = zone_mentions::next_start(s, place, last);
        let p = next.place;
        if p == 0 {
            return SizedRun {
                place: place,
                start: last,
                left: n,
                size: w,
            };
        }
        match places::count_at(s, p) {
            Err(_) => {
                return SizedRun {
                    place: place,
                    start: last,
                    left: n,
                    size: w,
                };
            }
            Ok((v, e)) => {
                let k = renumber(table, v as usize);
                w += write_mention(&s[place..p], k, &mut out[w..]);
                place = e;
                last = next.start;
                n -= 1;
            }
        }
    }
    SizedRun {
        place: place,
        start: last,
        left: n,
        size: w,
    }
}

// Writes the names in a row at a place.
fn write_names(
    s: &[u8],
    at: usize,
    left: u64,
    locations: u64,
    numbered: bool,
    table: &[u32],
    out: &mut [u8],
) -> SizedRow
    requires { (at ≤ length s.now) × Small table.now × (length (print (new_number table.now) (content_at (Names left locations numbered) (drop at s.now))) ≤ length out.old) }
    ensures { WrittenRun (new_number table.now) s.now at (Names left locations numbered) out.old result.place (Names result.left locations numbered) result.size out.new }
{
    let mut place = at;
    let mut n = left;
    let mut w: usize = 0;
    while 0 < n {
        match places::count_at(s, place) {
            Err(_) => {
                return SizedRow {
                    place: place,
                    left: n,
                    size: w,
                };
            }
            Ok((v, e)) => {
                let k = renumber(table, v as usize);
                w += write_number(k, &mut out[w..]);
                place = e;
                n -= 1;
            }
        }
    }
    SizedRow {
        place: place,
        left: n,
        size: w,
    }
}

// Writes the run that follows a stage at a place, if any.
pub fn write_run(s: &[u8], at: usize, stage: Stage, table: &[u32], out: &mut [u8]) -> SizedStage
    requires { (at ≤ length s.now) × Small table.now × (length (print (new_number table.now) (content_at stage (drop at s.now))) ≤ length out.old) }
    ensures { WrittenRun (new_number table.now) s.now at stage out.old result.place result.stage result.size out.new }
{
    match stage {
        Stage::Interval(start, left) => {
            let r = write_intervals(s, at, start, left, table, out);
            SizedStage {
                place: r.place,
                stage: Stage::Interval(r.start, r.left),
                size: r.size,
            }
        }
        Stage::Names(n, locations, numbered) => {
            let r = write_names(s, at, n, locations, numbered, table, out);
            SizedStage {
                place: r.place,
                stage: Stage::Names(r.left, locations, numbered),
                size: r.size,
            }
        }
        _ => SizedStage {
            place: at,
            stage: stage,
            size: 0,
        },
    }
}

// Counts the mentions in the data of a field with the ID i.
pub fn count(i: u8, s: &[u8], uses: &mut [u32])
    requires { Fits uses.old (length s.now) }
    ensures { uses.new ≡ mention_all (numbers_of i s.now) uses.old }
{
    let mut at: usize = 0;
    let mut stage = mention_steps::first(i);
    loop {
        let c = mention_runs::count_run(s, at, stage, uses);
        let place = c.place;
        let behind_run = c.stage;
        let m = mention_steps::next(s, place, behind_run);
        match m {
            None => {
                return;
            }
            Some((behind, v, _, e)) => {
                mention_runs::mention(uses, v as usize);
                at = e;
                stage = behind;
            }
        }
    }
}

// The length of the renumbered data of a field with the ID i.
pub fn size(i: u8, s: &[u8], table: &[u32]) -> usize
    requires { length s.now ≤ 4194304 }
    ensures { result ≡ length (renumbered (new_number table.now) i s.now) }
{
    let mut at: usize = 0;
    let mut stage = mention_steps::first(i);
    let mut n: usize = 0;
    loop {
        let c = size_run(s, at, stage, table);
        let place = c.place;
        let behind_run = c.stage;
        n += c.size;
        let m = mention_steps::next(s, place, behind_run);
        match m {
            None => {
                return n + (s.len() - place);
            }
            Some((behind, v, p, e)) => {
                let k = renumber(table, v as usize);
                n += (p - place) + count_writers::count_size(k);
                at = e;
                stage = behind;
            }
        }
    }
}

// Writes the renumbered data of a field with the ID i.
pub fn write(i: u8, s: &[u8], table: &[u32], out: &mut [u8]) -> usize
    requires { Small table.now × (length (renumbered (new_number table.now) i s.now) ≤ length out.old) }
    ensures { Put (renumbered (new_number table.now) i s.now) out.old result out.new }
{
    let mut at: usize = 0;
    let mut stage = mention_steps::first(i);
    let mut w: usize = 0;
    loop {
        let c = write_run(s, at, stage, table, &mut out[w..]);
        let place = c.place;
        let behind_run = c.stage;
        w += c.size;
        let m = mention_steps::next(s, place, behind_run);
        match m {
            None => {
                return w + slices::copy(&s[place..], &mut out[w..]);
            }
            Some((behind, v, p, e)) => {
                let k = renumber(table, v as usize);
                w += write_mention(&s[place..p], k, &mut out[w..]);
                at = e;
                stage = behind;
            }
        }
    }
}
