// The sample between two neighbouring ones of a row, by the H.265 luma filters of document 02, card 2. Samples are loaded here and then read: lent
// to another function for that, the slice would have to stand in memory.
#![tactic(auto)]

ghost use Rattle.std.specs.Prelude.{◌≡◌, ◌+◌, ◌-◌, ◌<◌, ◌≤◌, min, length};
ghost use Rattle.model.specs.Row.{repeated, mixed};

// The sample k quarters of the way from the fourth of eight samples to the fifth.
fn inner(near: &[u16], k: u32) -> u16
    requires le_k { (1 ≤ k) × (k ≤ 3) }
    requires near_len { length near.now ≡ 8 }
    ensures { result ≡ mixed near.now 3 k }
{
    if k == 1 {
        return taps::quarter_of(
            model::read(near[0]),
            model::read(near[1]),
            model::read(near[2]),
            model::read(near[3]),
            model::read(near[4]),
            model::read(near[5]),
            model::read(near[6]),
        );
    }
    if k == 2 {
        return taps::half_of(
            model::read(near[0]),
            model::read(near[1]),
            model::read(near[2]),
            model::read(near[3]),
            model::read(near[4]),
            model::read(near[5]),
            model::read(near[6]),
            model::read(near[7]),
        );
    }
    // the same taps as a quarter of the way, read backwards
    taps::quarter_of(
        model::read(near[7]),
        model::read(near[6]),
        model::read(near[5]),
        model::read(near[4]),
        model::read(near[3]),
        model::read(near[2]),
        model::read(near[1]),
    )
}

// Column i − 3 of a row of w, or the end that it lies past.
fn column_at(i: usize, w: usize) -> usize
    requires { 0 < w }
    ensures { (result ≡ min (i - 3) (w - 1)) × (result < w) }
{
    i.saturating_sub(3).min(w - 1)
}

// The sample of column i − 3, ends repeated.
fn repeated_at(row: &[u16], i: usize) -> u16
    requires { 0 < length row.now }
    ensures { result ≡ repeated row.now i }
{
    model::read(row[column_at(i, row.len())])
}

// The sample k quarters of the way from column c to the next, where some of the eight samples lie past an end of the row.
fn outer(row: &[u16], c: usize, k: u32) -> u16
    requires le_k { (1 ≤ k) × (k ≤ 3) }
    requires c_in_bounds { (c < length row.now) × (length row.now ≤ 4096) }
    ensures { result ≡ mixed row.now c k }
{
    let mut near = [0u16; 8];
    for (j, sample) in near.iter_mut().enumerate() {
        *sample = repeated_at(row, c + j);
    }
    inner(&near, k)
}

// The sample k quarters of the way from column c to the next.
pub fn between(row: &[u16], c: usize, k: u32) -> u16
    requires k_bound { k ≤ 4 }
    requires c_in_bounds { (c + 1 < length row.now) × (length row.now ≤ 4096) }
    ensures { result ≡ mixed row.now c k }
{
    if k == 0 {
        return model::read(row[c]);
    }
    if 3 < k {
        return model::read(row[c + 1]);
    }
    if 3 <= c && c + 4 < row.len() {
        return inner(&row[c - 3..c + 5], k);
    }
    outer(row, c, k)
}
