// Mentions counted in runs: names behind names, and names of locations.
#![tactic(auto)]

ghost use Rattle.std.specs.Prelude.{◌≡◌, ◌-◌, ◌≤◌, ◌<◌, length, get_or};
ghost use Rattle.use_order.specs.Order.{mention as mention_of};
ghost use Rattle.mentions.specs.declared.Stage.TheVariants.{Names};
ghost use Rattle.mention_runs.specs.Run.{Room, Counted};

use mentions::Stage;

// One use more of k.
pub fn mention(uses: &mut [u32], k: usize)
    requires { get_or uses.old k 0 < 4294967295 }
    ensures { uses.new ≡ mention_of k uses.old }
{
    if k < uses.len() {
        uses[k] = uses[k] + 1;
    }
}

// Before so many names.
#[derive(Clone, Copy)]
pub struct Row {
    pub place: usize,
    pub left: u64,
}

// Counts the names in a row at a place.
fn count_names(
    s: &[u8],
    at: usize,
    left: u64,
    locations: u64,
    numbered: bool,
    uses: &mut [u32],
) -> Row
    requires { (at ≤ length s.now) × Room uses.old (length s.now - at) }
    ensures { Counted s.now at (Names left locations numbered) uses.old result.place (Names result.left locations numbered) uses.new }
{
    let mut place = at;
    let mut n = left;
    while 0 < n {
        match places::count_at(s, place) {
            Err(_) => {
                return Row {
                    place: place,
                    left: n,
                };
            }
            Ok((v, e)) => {
                mention(uses, v as usize);
                place = e;
                n -= 1;
            }
        }
    }
    Row {
        place: place,
        left: n,
    }
}

// Before so many names and so many locations.
#[derive(Clone, Copy)]
pub struct List {
    pub place: usize,
    pub left: u64,
    pub locations: u64,
}

// Counts the names in a row at a place and those of the locations that follow.
fn count_locations(
    s: &[u8],
    at: usize,
    left: u64,
    locations: u64,
    numbered: bool,
    uses: &mut [u32],
) -> List
    requires { (at ≤ length s.now) × Room uses.old (length s.now - at) }
    ensures { Counted s.now at (Names left locations numbered) uses.old result.place (Names result.left result.locations numbered) uses.new }
{
    let mut place = at;
    let mut n = left;
    let mut k = locations;
    loop {
        let row = count_names(s, place, n, k, numbered, uses);
        place = row.place;
        n = row.left;
        if 0 < n {
            return List {
                place: place,
                left: n,
                locations: k,
            };
        }
        if k == 0 {
            return List {
                place: place,
                left: n,
                locations: k,
            };
        }
        match mention_steps::location_names(s, place, numbered) {
            Err(_) => {
                return List {
                    place: place,
                    left: n,
                    locations: k,
                };
            }
            Ok((m, p)) => match places::count_at(s, p) {
                Err(_) => {
                    return List {
                        place: place,
                        left: n,
                        locations: k,
                    };
                }
                Ok((v, e)) => {
                    mention(uses, v as usize);
                    place = e;
                    n = m;
                    k -= 1;
                }
            },
        }
    }
}

// A place and the stage there.
#[derive(Clone, Copy)]
pub struct Stood {
    pub place: usize,
    pub stage: Stage,
}

// Counts the run that follows a stage at a place, if any.
pub fn count_run(s: &[u8], at: usize, stage: Stage, uses: &mut [u32]) -> Stood
    requires { (at ≤ length s.now) × Room uses.old (length s.now - at) }
    ensures { Counted s.now at stage uses.old result.place result.stage uses.new }
{
    match stage {
        Stage::Names(n, locations, numbered) => {
            let r = count_locations(s, at, n, locations, numbered, uses);
            Stood {
                place: r.place,
                stage: Stage::Names(r.left, r.locations, numbered),
            }
        }
        _ => Stood {
            place: at,
            stage: stage,
        },
    }
}
