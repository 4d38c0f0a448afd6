// The walks over the fields of a whole file whose pool is closed up: the closed file, its length and the writing of it; and what a walk over its
// mentions does with a field.
#![tactic(auto)]

ghost use Rattle.std.specs.Prelude.{◌≡◌, ◌∷◌, ◌+◌, ◌≤◌, length};
ghost use Rattle.frames.specs.Fields.{fields};
ghost use Rattle.use_order.specs.Order.{mention_all};
ghost use Rattle.pieces.specs.View.{Put};
ghost use Rattle.renumbering.specs.Table.{Fits};
ghost use Rattle.closed_files.specs.File.{mentions_in, closed_data, closed_fields, unread_id};
ghost use Rattle.mentions.specs.Content.{numbers_of};
ghost use Rattle.closed_fields.specs.View.{NumbersKept, PoolChecked};
ghost use Rattle.closed_walks.specs.View.{ZoneStepped, Walkable, InPlace, Closable, sizes_of, HasSizes, SizeAt};

// Whether a field with the ID i is one that isn't read.
pub fn is_unread(i: u8) -> bool
    ensures { result ≡ unread_id i }
{
    if i == 4 {
        return true;
    }
    if i == 5 {
        return true;
    }
    7 < i
}

// Counts the mentions in the data of a field with the ID i. A zone's, nearly all, are counted by the first bytes of its codes.
pub fn count_field(i: u8, d: &[u8], uses: &mut [u32])
    requires { ZoneStepped i d.now × Fits uses.old (length d.now) }
    ensures { uses.new ≡ mention_all (numbers_of i d.now) uses.old }
{
    if i == 1 {
        counted_zones::count_zone(d, uses);
        return;
    }
    renumbering::count(i, d, uses);
}

// Whether each number of an order stands at its own place.
pub fn in_place(order: &[u64]) -> bool
    ensures { InPlace result order.now }
{
    for (i, &k) in order.iter().enumerate() {
        if k != i as u64 {
            return false;
        }
    }
    true
}

// The length of the closed file. The lengths of its fields' data go to sizes, as far as that goes.
pub fn total(s: &[u8], order: &[u64], table: &[u32], kept: bool, sizes: &mut [u32]) -> usize
    requires { Walkable s.now × (length order.now ≤ 8192) × NumbersKept kept table.now (mentions_in (fields s.now)) }
    ensures { (result ≡ 4 + length (closed_fields order.now table.now (fields s.now))) × HasSizes sizes.new (sizes_of order.now table.now (fields s.now)) }
{
    let mut n: usize = 0;
    let mut at: usize = 4;
    let mut i: usize = 0;
    while at < s.len() {
        let f = sizes::read_field(s, at);
        let a = f.start;
        let e = f.end;
        let k = closed_fields::data_size(f.id, &s[a..e], order, table, kept);
        ordered_uses::store(sizes, i, k as u32);
        n += closed_fields::field_size(k);
        at = e;
        i += 1;
    }
    4 + n
}

// The length of the closed data of the j-th field, by sizes as far as that goes.
fn size_at(
    sizes: &[u32],
    j: usize,
    i: u8,
    d: &[u8],
    order: &[u64],
    table: &[u32],
    kept: bool,
) -> usize
    requires { (length d.now ≤ 4194304) × (length order.now ≤ 8192) × NumbersKept kept table.now (numbers_of i d.now) × PoolChecked i d.now × SizeAt sizes.now j (length (closed_data order.now table.now i d.now)) }
    ensures { result ≡ length (closed_data order.now table.now i d.now) }
{
    if j < sizes.len() {
        return sizes[j] as usize;
    }
    closed_fields::data_size(i, d, order, table, kept)
}

// Writes the fields of the closed file.
fn write_fields(
    s: &[u8],
    order: &[u64],
    table: &[u32],
    kept: bool,
    sizes: &[u32],
    out: &mut [u8],
) -> usize
    requires { Closable s.now order.now table.now kept × (length (closed_fields order.now table.now (fields s.now)) ≤ length out.old) × HasSizes sizes.now (sizes_of order.now table.now (fields s.now)) }
    ensures { Put (closed_fields order.now table.now (fields s.now)) out.old result out.new }
{
    let mut w: usize = 0;
    let mut at: usize = 4;
    let mut i: usize = 0;
    while at < s.len() {
        let f = sizes::read_field(s, at);
        let a = f.start;
        let e = f.end;
        let n = size_at(sizes, i, f.id, &s[a..e], order, table, kept);
        w += closed_fields::write_field(f.id, &s[a..e], order, table, kept, n, &mut out[w..]);
        at = e;
        i += 1;
    }
    w
}

// Writes the closed file: the version, then the fields.
pub fn write_file(
    s: &[u8],
    order: &[u64],
    table: &[u32],
    kept: bool,
    sizes: &[u32],
    out: &mut [u8],
) -> usize
    requires { Closable s.now order.now table.now kept × (4 + length (closed_fields order.now table.now (fields s.now)) ≤ length out.old) × HasSizes sizes.now (sizes_of order.now table.now (fields s.now)) }
    ensures { Put (0 ∷ 0 ∷ 0 ∷ 0 ∷ closed_fields order.now table.now (fields s.now)) out.old result out.new }
{
    let w = slices::copy(&s[..4], out);
    w + write_fields(s, order, table, kept, sizes, &mut out[w..])
}
