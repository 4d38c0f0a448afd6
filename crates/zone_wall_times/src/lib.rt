// Wall time to instants, of a zone found once: the zone alone is read.
#![tactic(auto)]

ghost use Rattle.std.specs.Prelude.{◌≡◌};
ghost use Rattle.zone_wall_times.specs.ZoneMapping.{MapsZone};

use base::Fault;
use found_zones::FoundZone;

// The instants in range that read as a local time, given in ticks since 1970-01-01T00:00 local, in the found zone v, whatever its numbers and the
// bytes are.
pub fn map_zone(file: &[u8], v: FoundZone, local: i64) -> Result<(u64, i64, i64), Fault>
    ensures { MapsZone file.now v local result }
{
    let count = pool::room(location_lookup::lent(file, v.pool, v.past));
    let zone = location_lookup::lent(file, v.start, v.end);
    let l = wall_times::local_number(local);
    match local_lookups::find(zone, count as u64, l) {
        Err(n) => Err((n, found_zones::place_in(v))),
        Ok(a) => wall_times::in_ticks(a),
    }
}
