// The answers of a found zone's intervals one after the other, put in lent room: the first by the question, those behind it by later_answers.
#![tactic(auto)]

ghost use Rattle.answer_tables.specs.Lists.{ListsAnswers};

use base::{Fault, Refusal};
use found_zones::FoundZone;
use zones::Edition;

// The answers from the one at a tick on, as many as there is room for or the zone has: how many rows were put.
pub fn list_answers(
    file: &[u8],
    v: FoundZone,
    ticks: i64,
    edition: Edition,
    rows: &mut [i64],
) -> Result<usize, Fault>
    ensures { ListsAnswers file.now v ticks edition rows.old result rows.new }
{
    let x = found_zones::ask_zone(file, v, ticks, edition)?;
    if rows.len() < 7 {
        return Err((Refusal::TooShort, 0));
    }
    later_answers::put_row(x, rows, 0);
    if rows.len() < 14 {
        return Ok(1);
    }
    let e = signed::instant(x.end);
    if e == 0 {
        return Ok(1);
    }
    Ok(later_answers::list_behind(file, v, e, rows))
}
