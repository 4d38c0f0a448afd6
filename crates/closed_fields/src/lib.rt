// A field of a closed file: its length, and the writing of it.
#![tactic(auto)]

ghost use Rattle.std.specs.Prelude.{◌≡◌, ◌∷◌, ◌+◌, ◌≤◌, length};
ghost use Rattle.counts.specs.Count.{write_count};
ghost use Rattle.pieces.specs.View.{Put};
ghost use Rattle.mentions.specs.Content.{numbers_of};
ghost use Rattle.renumbering.specs.Run.{Small};
ghost use Rattle.closed_files.specs.File.{write_field, closed_data};
ghost use Rattle.closed_fields.specs.View.{Sized, NumbersKept, PoolChecked};

// The length of the closed data of a field with the ID i. Where all numbers are kept, so are the data.
pub fn data_size(i: u8, d: &[u8], order: &[u64], table: &[u32], kept: bool) -> usize
    requires { (length d.now ≤ 4194304) × (length order.now ≤ 8192) × NumbersKept kept table.now (numbers_of i d.now) × PoolChecked i d.now }
    ensures { result ≡ length (closed_data order.now table.now i d.now) }
{
    if i == 0 {
        return closed_pools::pool_size(d, order);
    }
    if kept {
        return d.len();
    }
    renumbering::size(i, d, table)
}

// The length of a field whose data have the length n.
pub fn field_size(n: usize) -> usize
    requires { n ≤ 20971520 }
    ensures { result ≡ 1 + length (write_count n) + n }
{
    1 + count_writers::count_size(n as u64) + n
}

// Writes the closed data of a field with the ID i.
fn write_data(i: u8, d: &[u8], order: &[u64], table: &[u32], kept: bool, out: &mut [u8]) -> usize
    requires { (length order.now ≤ 8192) × Small table.now × (length (closed_data order.now table.now i d.now) ≤ length out.old) × NumbersKept kept table.now (numbers_of i d.now) × PoolChecked i d.now }
    ensures { Put (closed_data order.now table.now i d.now) out.old result out.new }
{
    if i == 0 {
        return closed_pools::write_pool(d, order, out);
    }
    if kept {
        return slices::copy(d, out);
    }
    renumbering::write(i, d, table, out)
}

// Writes a field's ID and size.
fn write_head(i: u8, n: usize, out: &mut [u8]) -> usize
    requires { (n ≤ 4194304) × (length (i ∷ write_count n) ≤ length out.old) }
    ensures { Put (i ∷ write_count n) out.old result out.new }
{
    out[0] = i;
    1 + renumbering::write_number(n as u64, &mut out[1..])
}

// Writes a closed field, whose data have the length n.
pub fn write_field(
    i: u8,
    d: &[u8],
    order: &[u64],
    table: &[u32],
    kept: bool,
    n: usize,
    out: &mut [u8],
) -> usize
    requires { Sized order.now table.now d.now × (length (write_field i (closed_data order.now table.now i d.now)) ≤ 4194304) × (length (write_field i (closed_data order.now table.now i d.now)) ≤ length out.old) × NumbersKept kept table.now (numbers_of i d.now) × PoolChecked i d.now × (n ≡ length (closed_data order.now table.now i d.now)) }
    ensures { Put (write_field i (closed_data order.now table.now i d.now)) out.old result out.new }
{
    let w = write_head(i, n, out);
    w + write_data(i, d, order, table, kept, &mut out[w..])
}
