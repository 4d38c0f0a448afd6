// A field in its preferred form: how long it is, and the writing of it.
#![tactic(auto)]

ghost use Rattle.std.specs.Prelude.{◌≡◌, ◌∷◌, ◌++◌, ◌+◌, ◌≤◌, length};
ghost use Rattle.counts.specs.Count.{write_count};
ghost use Rattle.pieces.specs.View.{HasContent, Put};
ghost use Rattle.preferred_fields.specs.Field.{print_field, field_with};
ghost use Rattle.preferred_fields.specs.View.{Told, Copied, Unchanged};

// Whether a field is copied: where it is no zone, and where its flag, which stands at the number of its ID, is 0.
fn is_copied(i: u8, d: &[u8], flags: &[u8]) -> bool
    requires { i ≡ 1 → Told flags.now d.now }
    ensures { Copied i d.now result }
{
    if i != 1 {
        return true;
    }
    match places::count_at(d, 0) {
        Err(_) => false,
        Ok((id, _)) => {
            if flags.len() <= id as usize {
                return false;
            }
            flags[id as usize] == 0
        }
    }
}

// Whether a field whose ID and size take so many bytes is in its preferred form.
pub fn is_unchanged(i: u8, head: usize, d: &[u8], flags: &[u8]) -> bool
    requires { i ≡ 1 → Told flags.now d.now }
    ensures { Unchanged i head d.now result }
{
    if head != 1 + count_writers::count_size(d.len() as u64) {
        return false;
    }
    is_copied(i, d, flags)
}

// The length of a field, by that of its data.
fn whole_size(n: usize) -> usize
    requires { 1 + length (write_count n) + n ≤ 4194304 }
    ensures { result ≡ 1 + length (write_count n) + n }
{
    1 + count_writers::count_size(n as u64) + n
}

// The length of a field in its preferred form.
pub fn field_size(i: u8, d: &[u8], flags: &[u8]) -> usize
    requires { (i ≡ 1 → Told flags.now d.now) × (length (print_field (field_with i d.now)) ≤ 4194304) }
    ensures { result ≡ length (print_field (field_with i d.now)) }
{
    if is_copied(i, d, flags) {
        return whole_size(d.len());
    }
    whole_size(contents::zone_size(d))
}

// Writes a field's ID and size.
fn write_head(i: u8, n: usize, out: &mut [u8]) -> usize
    requires { (n ≤ 4194304) × (length (i ∷ write_count n) ≤ length out.old) }
    ensures { Put (i ∷ write_count n) out.old result out.new }
{
    out[0] = i;
    match count_writers::write_count(n as u64, &mut out[1..]) {
        Err(_) => 0,
        Ok(k) => 1 + k,
    }
}

// Copies a field.
fn copy_field(i: u8, d: &[u8], out: &mut [u8]) -> usize
    requires { (length d.now ≤ 4194304) × (length (i ∷ (write_count (length d.now) ++ d.now)) ≤ length out.old) }
    ensures { Put (i ∷ (write_count (length d.now) ++ d.now)) out.old result out.new }
{
    let w = write_head(i, d.len(), out);
    w + copies::copy(d, &mut out[w..])
}

// Writes a zone in its preferred form: its data behind the room for ID and size, then these, once the size is known.
fn write_zone(d: &[u8], out: &mut [u8]) -> usize
    requires { HasContent d.now × (length (print_field (field_with 1 d.now)) ≤ 4194304) × (length (print_field (field_with 1 d.now)) ≤ length out.old) }
    ensures { Put (print_field (field_with 1 d.now)) out.old result out.new }
{
    let k = 1 + contents::size_length(d);
    let n = contents::write_zone(d, &mut out[k..]);
    let w = write_head(1, n, out);
    w + n
}

// Writes a field in its preferred form.
pub fn write_field(i: u8, d: &[u8], flags: &[u8], out: &mut [u8]) -> usize
    requires { (i ≡ 1 → Told flags.now d.now) × (length (print_field (field_with i d.now)) ≤ 4194304) × (length (print_field (field_with i d.now)) ≤ length out.old) }
    ensures { Put (print_field (field_with i d.now)) out.old result out.new }
{
    if is_copied(i, d, flags) {
        return copy_field(i, d, out);
    }
    write_zone(d, out)
}
