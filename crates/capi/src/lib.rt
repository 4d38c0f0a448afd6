// The functions for programs in C: thin over the proved ones, by numbers and slices alone. include/nzd.h says how they are called.
#![tactic(auto)]

ghost use Rattle.std.specs.Prelude.{◌≡◌};
ghost use Rattle.counts.specs.Count.{read_count};
ghost use Rattle.counts.specs.SignedCount.{read_signed_count, signed_count_form};
ghost use Rattle.offsets.specs.Offset.{read_offset, offset_form};
ghost use Rattle.transitions.specs.Transition.{read_moment};
ghost use Rattle.texts.specs.Text.{read_text, text_form};
ghost use Rattle.field_checks.specs.Check.{version_of};
ghost use Rattle.questions.specs.Question.{ask as ask_of, ask_plain};
ghost use Rattle.found_zones.specs.FoundZone.{ask_zone};
ghost use Rattle.answer_tables.specs.Table.{ask_listed};
ghost use Rattle.zone_replies.specs.Zones.{zone_by};
ghost use Rattle.named_fields.specs.Named.{ask_named};
ghost use Rattle.old_counts.specs.OldCount.{read_old_count, old_count_form};
ghost use Rattle.old_offsets.specs.OldOffset.{read_old_offset, old_offset_form};
ghost use Rattle.old_texts.specs.OldText.{read_old_text, old_text_form};
ghost use Rattle.old_dictionaries.specs.OldDictionary.{read_old_dictionary, old_dictionary_form};
ghost use Rattle.old_named_questions.specs.OldNamed.{ask_named_old};
ghost use Rattle.old_replies.specs.Functions.{dictionary_reply, PutsLong};
ghost use Rattle.halving.specs.Halving.{find_start};
ghost use Rattle.replay.specs.Reports.{replay as replay_of};
ghost use Rattle.receivers.specs.Receive.{fresh, Adds};
ghost use Rattle.replies.specs.Reply.{Gives, Puts};
ghost use Rattle.replies.specs.Functions.{read_reply, number_reply, text_reply, moment_reply, previous_of, integer_form};
ghost use Rattle.file_replies.specs.Functions.{mark_of, answer_reply, version_reply, edition_of};
ghost use Rattle.capi_contracts.specs.Functions.{FindsFoundZone, ListsZoneAnswers, MapsLocal, MapsZoneLocal, kind_form, StepsView, Normalizes, FillsStarts, ListsDifference, ClosesPool};
ghost use Rattle.capi_contracts.specs.Received.{ask_received, ask_plain_received, ask_named_received, location_received, MapsReceived, version_received, NormalizesReceived};
ghost use Rattle.file_locations.specs.ByField.{location_by};
ghost use Rattle.location_replies.specs.Locations.{GivesLocation};
ghost use Rattle.tool_replies.specs.Functions.{search_reply, report_reply};

use receivers::Receiver;

// The check of a whole file, and its preferred form.
#[unsafe(no_mangle)]
pub extern "C" fn nzd_normalize(file: &[u8], out: &mut [u8]) -> u64
    ensures { Normalizes file.now out.old result out.new }
{
    let r = normalizing::normalize(file, out);
    replies::length_result(r)
}

// The marked question.
#[unsafe(no_mangle)]
pub extern "C" fn nzd_ask(
    file: &[u8],
    id: &[u8],
    ticks: i64,
    more: bool,
    first: bool,
    out: &mut [i64; 7],
) -> u64
    ensures { Gives (answer_reply (ask_of file.now id.now ticks (mark_of more) (edition_of first))) out.old result out.new }
{
    let mark = file_replies::mark_of(more);
    let edition = file_replies::edition_of(first);
    let a = marked_questions::ask(file, id, ticks, mark, edition);
    file_replies::give_answer(a, out)
}

// The plain question.
#[unsafe(no_mangle)]
pub extern "C" fn nzd_ask_plain(
    file: &[u8],
    id: &[u8],
    ticks: i64,
    first: bool,
    out: &mut [i64; 7],
) -> u64
    ensures { Gives (answer_reply (ask_plain file.now id.now ticks (edition_of first))) out.old result out.new }
{
    let edition = file_replies::edition_of(first);
    let a = marked_questions::ask_plain(file, id, ticks, edition);
    file_replies::give_answer(a, out)
}

// The named question.
#[unsafe(no_mangle)]
pub extern "C" fn nzd_ask_named(
    file: &[u8],
    name: &[u8],
    ticks: i64,
    more: bool,
    first: bool,
    out: &mut [i64; 7],
) -> u64
    ensures { Gives (answer_reply (ask_named file.now name.now ticks (mark_of more) (edition_of first))) out.old result out.new }
{
    let mark = file_replies::mark_of(more);
    let edition = file_replies::edition_of(first);
    let a = named_questions::ask_named(file, name, ticks, mark, edition);
    file_replies::give_answer(a, out)
}

// The named question over an older dictionary.
#[unsafe(no_mangle)]
pub extern "C" fn nzd_ask_named_old(
    file: &[u8],
    older: &[u8],
    name: &[u8],
    ticks: i64,
    first: bool,
    out: &mut [i64; 7],
) -> u64
    ensures { Gives (answer_reply (ask_named_old file.now older.now name.now ticks (edition_of first))) out.old result out.new }
{
    let edition = file_replies::edition_of(first);
    let a = old_name_answers::ask_named_old(file, older, name, ticks, edition);
    file_replies::give_answer(a, out)
}

// A zone, found once for repeated questions.
#[unsafe(no_mangle)]
pub extern "C" fn nzd_find_zone(file: &[u8], id: &[u8], out: &mut [u64; 5]) -> u64
    ensures { FindsFoundZone file.now id.now out.old result out.new }
{
    let x = found_zones::find_zone(file, id);
    zone_replies::give_zone(x, out)
}

// The question on a found zone, whatever its numbers are.
#[unsafe(no_mangle)]
pub extern "C" fn nzd_ask_zone(
    file: &[u8],
    zone: &[u64; 5],
    ticks: i64,
    first: bool,
    out: &mut [i64; 7],
) -> u64
    ensures { Gives (answer_reply (ask_zone file.now (zone_by zone.now) ticks (edition_of first))) out.old result out.new }
{
    let v = zone_replies::zone_by(zone);
    let edition = file_replies::edition_of(first);
    let a = found_zones::ask_zone(file, v, ticks, edition);
    file_replies::give_answer(a, out)
}

// The answers of a found zone's intervals, from the one at a tick on, put in a lent table.
#[unsafe(no_mangle)]
pub extern "C" fn nzd_list_answers(
    file: &[u8],
    zone: &[u64; 5],
    ticks: i64,
    first: bool,
    rows: &mut [i64],
    count: &mut [i64; 1],
) -> u64
    ensures { ListsZoneAnswers file.now zone.now ticks first rows.old count.old result rows.new count.new }
{
    let v = zone_replies::zone_by(zone);
    let edition = file_replies::edition_of(first);
    let x = answer_lists::list_answers(file, v, ticks, edition, rows);
    replies::give_count(x, count)
}

// The question over a table of a found zone's answers, whatever its rows are.
#[unsafe(no_mangle)]
pub extern "C" fn nzd_ask_listed(
    file: &[u8],
    zone: &[u64; 5],
    rows: &[i64],
    ticks: i64,
    first: bool,
    out: &mut [i64; 7],
) -> u64
    ensures { Gives (answer_reply (ask_listed file.now (zone_by zone.now) rows.now ticks (edition_of first))) out.old result out.new }
{
    let v = zone_replies::zone_by(zone);
    let edition = file_replies::edition_of(first);
    let a = table_questions::ask_listed(file, v, rows, ticks, edition);
    file_replies::give_answer(a, out)
}

// The instants that read as a local time.
#[unsafe(no_mangle)]
pub extern "C" fn nzd_map_local(file: &[u8], id: &[u8], local: i64, out: &mut [i64; 3]) -> u64
    ensures { MapsLocal file.now id.now local out.old result out.new }
{
    let m = wall_times::map_local(file, id, local);
    file_replies::give_mapping(m, out)
}

// The instants that read as a local time in a found zone, whatever its numbers are.
#[unsafe(no_mangle)]
pub extern "C" fn nzd_map_zone_local(
    file: &[u8],
    zone: &[u64; 5],
    local: i64,
    out: &mut [i64; 3],
) -> u64
    ensures { MapsZoneLocal file.now zone.now local out.old result out.new }
{
    let v = zone_replies::zone_by(zone);
    let m = zone_wall_times::map_zone(file, v, local);
    file_replies::give_mapping(m, out)
}

// A location by field and number.
#[unsafe(no_mangle)]
pub extern "C" fn nzd_location(
    file: &[u8],
    field: u64,
    number: u64,
    pin: &mut [f64; 2],
    out: &mut [u64; 8],
) -> u64
    ensures { GivesLocation (location_by file.now field number) pin.old out.old result pin.new out.new }
{
    let a = file_locations::location_by(file, field, number);
    location_replies::give_location(a, pin, out)
}

// The next country of a view, whatever its numbers are.
#[unsafe(no_mangle)]
pub extern "C" fn nzd_next_country(file: &[u8], view: &mut [u64; 4], out: &mut [u64; 4]) -> bool
    ensures { StepsView file.now view.old out.old result view.new out.new }
{
    let start = view[0];
    let end = view[1];
    let at = view[2];
    let left = view[3];
    let x = country_texts::next_country(
        file,
        start as usize,
        end as usize,
        at as usize,
        left as usize,
    );
    location_replies::give_country(x, start, end, view, out)
}

// The version text.
#[unsafe(no_mangle)]
pub extern "C" fn nzd_version_text(file: &[u8], out: &mut [i64; 2]) -> u64
    ensures { Gives (version_reply (version_of file.now)) out.old result out.new }
{
    let t = checks::version_text(file);
    replies::give_pair(t, out)
}

// Where two whole files differ in one zone, over a window of instants: two numbers a stretch.
#[unsafe(no_mangle)]
pub extern "C" fn nzd_difference(
    file: &[u8],
    other: &[u8],
    id: &[u8],
    first: i64,
    last: i64,
    out: &mut [i64],
    count: &mut [i64; 1],
) -> u64
    ensures { ListsDifference file.now other.now id.now first last out.old count.old result out.new count.new }
{
    let x = file_differences::difference(file, other, id, first, last, out);
    replies::give_count(x, count)
}

// The first record of a trace that a file contradicts.
#[unsafe(no_mangle)]
pub extern "C" fn nzd_replay(file: &[u8], trace: &[u8], out: &mut [i64; 1]) -> u64
    ensures { Gives (report_reply (replay_of file.now trace.now)) out.old result out.new }
{
    let x = replay::replay(file, trace);
    tool_replies::give_report(x, out)
}

// The listed interval starts of a zone.
#[unsafe(no_mangle)]
pub extern "C" fn nzd_interval_starts(
    file: &[u8],
    id: &[u8],
    out: &mut [i64],
    count: &mut [i64; 1],
) -> u64
    ensures { FillsStarts file.now id.now out.old count.old result out.new count.new }
{
    let x = starts::fill_starts(file, id, out);
    replies::give_count(x, count)
}

// The entry of a table that halving leaves for an instant.
#[unsafe(no_mangle)]
pub extern "C" fn nzd_find_start(table: &[i64], instant: i64, out: &mut [i64; 2]) -> u64
    ensures { Gives (search_reply (find_start table.now instant)) out.old result out.new }
{
    let x = halving::find_start(table, instant);
    replies::give_pair(x, out)
}

// A whole file with its pool closed up.
#[unsafe(no_mangle)]
pub extern "C" fn nzd_close_pool(file: &[u8], out: &mut [u8]) -> u64
    ensures { ClosesPool file.now out.old result out.new }
{
    let x = closing::close_pool(file, out);
    replies::length_result(x)
}

// Empties a receiver.
#[unsafe(no_mangle)]
pub extern "C" fn nzd_receiver_reset(r: &mut Receiver)
    ensures { r.new ≡ fresh }
{
    *r = Receiver {
        held: 0,
        place: 0,
        prev: 0,
    };
}

// Adds a piece behind what a receiver holds: the receiver is changed in place.
#[unsafe(no_mangle)]
pub extern "C" fn nzd_receiver_add(r: &mut Receiver, buffer: &mut [u8], piece: &[u8]) -> u64
    ensures { Adds r.old buffer.old piece.now (record { receiver = r.new; number = result }) buffer.new }
{
    let o = receiver_steps::added(*r, buffer, piece);
    *r = o.receiver;
    o.number
}

// The marked question of what a receiver holds.
#[unsafe(no_mangle)]
pub extern "C" fn nzd_receiver_ask(
    r: Receiver,
    buffer: &[u8],
    id: &[u8],
    ticks: i64,
    more: bool,
    first: bool,
    out: &mut [i64; 7],
) -> u64
    ensures { Gives (ask_received r buffer.now id.now ticks more first) out.old result out.new }
{
    let held = r.held;
    if buffer.len() < held {
        return 15;
    }
    nzd_ask(&buffer[..held], id, ticks, more, first, out)
}

// The plain question of what a receiver holds.
#[unsafe(no_mangle)]
pub extern "C" fn nzd_receiver_ask_plain(
    r: Receiver,
    buffer: &[u8],
    id: &[u8],
    ticks: i64,
    first: bool,
    out: &mut [i64; 7],
) -> u64
    ensures { Gives (ask_plain_received r buffer.now id.now ticks first) out.old result out.new }
{
    let held = r.held;
    if buffer.len() < held {
        return 15;
    }
    nzd_ask_plain(&buffer[..held], id, ticks, first, out)
}

// The named question of what a receiver holds.
#[unsafe(no_mangle)]
pub extern "C" fn nzd_receiver_ask_named(
    r: Receiver,
    buffer: &[u8],
    name: &[u8],
    ticks: i64,
    more: bool,
    first: bool,
    out: &mut [i64; 7],
) -> u64
    ensures { Gives (ask_named_received r buffer.now name.now ticks more first) out.old result out.new }
{
    let held = r.held;
    if buffer.len() < held {
        return 15;
    }
    nzd_ask_named(&buffer[..held], name, ticks, more, first, out)
}

// The instants that read as a local time, by what a receiver holds.
#[unsafe(no_mangle)]
pub extern "C" fn nzd_receiver_map_local(
    r: Receiver,
    buffer: &[u8],
    id: &[u8],
    local: i64,
    out: &mut [i64; 3],
) -> u64
    ensures { MapsReceived r buffer.now id.now local out.old result out.new }
{
    let held = r.held;
    if buffer.len() < held {
        return 15;
    }
    nzd_map_local(&buffer[..held], id, local, out)
}

// A location by what a receiver holds.
#[unsafe(no_mangle)]
pub extern "C" fn nzd_receiver_location(
    r: Receiver,
    buffer: &[u8],
    field: u64,
    number: u64,
    pin: &mut [f64; 2],
    out: &mut [u64; 8],
) -> u64
    ensures { GivesLocation (location_received r buffer.now field number) pin.old out.old result pin.new out.new }
{
    let held = r.held;
    if buffer.len() < held {
        return 15;
    }
    nzd_location(&buffer[..held], field, number, pin, out)
}

// The version text of what a receiver holds.
#[unsafe(no_mangle)]
pub extern "C" fn nzd_receiver_version_text(r: Receiver, buffer: &[u8], out: &mut [i64; 2]) -> u64
    ensures { Gives (version_received r buffer.now) out.old result out.new }
{
    let held = r.held;
    if buffer.len() < held {
        return 15;
    }
    nzd_version_text(&buffer[..held], out)
}

// The check and the preferred form of what a receiver holds.
#[unsafe(no_mangle)]
pub extern "C" fn nzd_receiver_normalize(r: Receiver, buffer: &[u8], out: &mut [u8]) -> u64
    ensures { NormalizesReceived r buffer.now out.old result out.new }
{
    let held = r.held;
    if buffer.len() < held {
        return 15;
    }
    nzd_normalize(&buffer[..held], out)
}

#[unsafe(no_mangle)]
pub extern "C" fn nzd_read_count(s: &[u8], out: &mut [i64; 2]) -> u64
    ensures { Gives (read_reply (read_count s.now)) out.old result out.new }
{
    let c = count_readers::read_count(s);
    replies::give_read(c, out)
}

#[unsafe(no_mangle)]
pub extern "C" fn nzd_read_signed_count(s: &[u8], out: &mut [i64; 2]) -> u64
    ensures { Gives (number_reply (read_signed_count s.now)) out.old result out.new }
{
    let c = count_readers::read_signed_count(s);
    replies::give_number(c, out)
}

#[unsafe(no_mangle)]
pub extern "C" fn nzd_read_offset(s: &[u8], out: &mut [i64; 2]) -> u64
    ensures { Gives (number_reply (read_offset s.now)) out.old result out.new }
{
    let c = offset_readers::read_offset(s);
    replies::give_number(c, out)
}

#[unsafe(no_mangle)]
pub extern "C" fn nzd_read_text(s: &[u8], out: &mut [i64; 2]) -> u64
    ensures { Gives (text_reply (read_text s.now)) out.old result out.new }
{
    let t = texts::read_text(s);
    replies::give_text(t, out)
}

#[unsafe(no_mangle)]
pub extern "C" fn nzd_read_transition(
    s: &[u8],
    previous: i64,
    finite: bool,
    out: &mut [i64; 3],
) -> u64
    ensures { Gives (moment_reply (read_moment (previous_of finite previous) s.now)) out.old result out.new }
{
    let p = moment_replies::previous_of(finite, previous);
    let c = transition_readers::read_moment(p, s);
    moment_replies::give_moment(c, out)
}

#[unsafe(no_mangle)]
pub extern "C" fn nzd_write_count(v: i64, out: &mut [u8]) -> u64
    ensures { Puts (integer_form v) out.old result out.new }
{
    let w = replies::write_integer(v, out);
    replies::written(w)
}

#[unsafe(no_mangle)]
pub extern "C" fn nzd_write_signed_count(v: i64, out: &mut [u8]) -> u64
    ensures { Puts (signed_count_form v) out.old result out.new }
{
    let w = count_writers::write_signed_count(v, out);
    replies::written(w)
}

#[unsafe(no_mangle)]
pub extern "C" fn nzd_write_offset(ms: i64, out: &mut [u8]) -> u64
    ensures { Puts (offset_form ms) out.old result out.new }
{
    let w = offset_writers::write_offset(ms, out);
    replies::written(w)
}

#[unsafe(no_mangle)]
pub extern "C" fn nzd_write_text(t: &[u8], out: &mut [u8]) -> u64
    ensures { Puts (text_form t.now) out.old result out.new }
{
    let w = texts::write_text(t, out);
    replies::written(w)
}

#[unsafe(no_mangle)]
pub extern "C" fn nzd_write_transition(
    kind: u8,
    ticks: i64,
    previous: i64,
    finite: bool,
    out: &mut [u8],
) -> u64
    ensures { Puts (kind_form finite previous kind ticks) out.old result out.new }
{
    let p = moment_replies::previous_of(finite, previous);
    let m = moment_replies::moment_of(kind, ticks);
    let w = transition_writers::write_moment(p, m, out);
    replies::written(w)
}

#[unsafe(no_mangle)]
pub extern "C" fn nzd_old_read_count(s: &[u8], out: &mut [i64; 2]) -> u64
    ensures { Gives (read_reply (read_old_count s.now)) out.old result out.new }
{
    let c = old_count_readers::read_count(s);
    replies::give_read(c, out)
}

#[unsafe(no_mangle)]
pub extern "C" fn nzd_old_read_offset(s: &[u8], out: &mut [i64; 2]) -> u64
    ensures { Gives (number_reply (read_old_offset s.now)) out.old result out.new }
{
    let c = old_offset_readers::read_offset(s);
    replies::give_number(c, out)
}

#[unsafe(no_mangle)]
pub extern "C" fn nzd_old_read_string(s: &[u8], out: &mut [i64; 2]) -> u64
    ensures { Gives (text_reply (read_old_text s.now)) out.old result out.new }
{
    let t = old_texts::read_text(s);
    replies::give_text(t, out)
}

#[unsafe(no_mangle)]
pub extern "C" fn nzd_old_read_dictionary(s: &[u8], out: &mut [i64; 2]) -> u64
    ensures { Gives (dictionary_reply (read_old_dictionary s.now)) out.old result out.new }
{
    let f = old_entries::read_dictionary(s);
    replies::give_read(f, out)
}

#[unsafe(no_mangle)]
pub extern "C" fn nzd_old_write_count(v: u64, out: &mut [u8]) -> u64
    ensures { Puts (old_count_form v) out.old result out.new }
{
    let w = old_count_writers::write_count(v, out);
    replies::written(w)
}

#[unsafe(no_mangle)]
pub extern "C" fn nzd_old_write_offset(ms: i64, out: &mut [u8]) -> u64
    ensures { Puts (old_offset_form ms) out.old result out.new }
{
    let w = old_offset_writers::write_offset(ms, out);
    replies::written(w)
}

#[unsafe(no_mangle)]
pub extern "C" fn nzd_old_write_string(t: &[u8], out: &mut [u8]) -> u64
    ensures { Puts (old_text_form t.now) out.old result out.new }
{
    let w = old_texts::write_text(t, out);
    replies::written(w)
}

#[unsafe(no_mangle)]
pub extern "C" fn nzd_old_write_dictionary(
    count: u64,
    pairs: &[u8],
    out: &mut [u8],
    length: &mut [u64; 1],
) -> u64
    ensures { PutsLong (old_dictionary_form count pairs.now) out.old length.old result out.new length.new }
{
    let w = old_dictionary_writers::write_dictionary(count, pairs, out);
    old_replies::give_length(w, length)
}
