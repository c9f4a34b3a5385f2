// The columns of a table of words: a comma or a line's end ends each.
ghost use Rattle.std.specs.Prelude.{◌≡◌, ◌-◌, ◌≤◌, length, take, drop};
ghost use Rattle.template.specs.Columns.{column_in, ends};

// Whether a byte ends a column.
fn is_end(b: u8) -> bool
    ensures answer { result ≡ ends b }
{
    b == b',' || b == b'\n'
}

// Where column k of a table begins, counted from its beginning on through all lines; the table's end where it has fewer.
pub fn column_start(table: &[u8], k: usize) -> usize
    ensures within { result ≤ length table.now }
    ensures answer { column_in (drop result table.now) 0 ≡ column_in table.now k }
{
    let mut left = k;
    for (at, &b) in table.iter().enumerate() {
        if left == 0 {
            return at;
        }
        if is_end(b) {
            left -= 1;
        }
    }
    table.len()
}

// Where the column that begins at a place ends.
pub fn column_end(table: &[u8], start: usize) -> usize
    requires { start ≤ length table.now }
    ensures within { (start ≤ result) × (result ≤ length table.now) }
    ensures answer { take (result - start) (drop start table.now) ≡ column_in (drop start table.now) 0 }
{
    let rest = &table[start..];
    start + rest.iter().position(|b| is_end(*b)).unwrap_or(rest.len())
}
