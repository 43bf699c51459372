// The limits of a row's columns, as they are held and as they are drawn; and the near edge that held limits tell.
#![tactic(auto)]

ghost use Rattle.std.specs.Prelude.{◌≡◌, true, ◌+◌, ◌-◌, ◌%◌, ◌≤◌, ◌<◌, min, length, get_or, pos};
ghost use Rattle.model.specs.Row.{place, signed};
ghost use Rattle.model.specs.Views.{seen};
ghost use Rattle.model.specs.Refusals.{table_ok};
ghost use Rattle.planes.specs.Parts.{Filled};
ghost use Rattle.signed.specs.Limits.{raised_of};
ghost use Rattle.pixel.specs.Pairs.{next_place};
ghost use Rattle.limits.specs.Limits.{limit_below, limit_under, LastHeld, EdgeHeld};

use pixel::Edge;

// The place of the column after c, or the row's end.
#[tactic(auto, using(model::proofs::Views::length_seen), unfolding(pixel::specs::Pairs::next_place))]
pub fn next_place(right: bool, table: &[u16; 256], depths: &[u8], c: usize) -> u32
    requires { (table_ok table.now ≡ true) × ((c < length depths.now) × (length depths.now ≤ 4096)) }
    ensures { result ≡ next_place table.now (seen right depths.now) c }
{
    if depths.len() <= c + 1 {
        4 * depths.len() as u32 + 1024
    } else {
        places::place_of(right, table, depths, c + 1)
    }
}

// The limit that is held for column c, raised.
pub fn held_limit(right: bool, limits: &[i16], c: usize) -> u32
    requires { c < length limits.now }
    ensures { result ≡ raised_of (get_or (seen right limits.now) c (pos 0)) }
{
    let i = planes::entry(right, limits.len(), c);
    signed::raised_of(limits[i])
}

// What is taken for the limit of column n, whose place, or the row's end, is `next`.
#[tactic(auto, using(model::proofs::Views::length_seen), unfolding(crate::specs::Limits::limit_under))]
pub fn limit_under(right: bool, limits: &[i16], n: usize, next: u32) -> u32
    ensures { result ≡ limit_under (seen right limits.now) n next }
{
    if n < limits.len() {
        next.min(held_limit(right, limits, n))
    } else {
        next
    }
}

// The column after the last one that may be placed at the limit of column n: a disparity is less than 256 columns.
fn edge_end(w: usize, n: usize) -> usize
    requires { (n < w) × (w ≤ 4096) }
    ensures { result ≡ min w (n + 256) }
{
    w.min(n + 256)
}

// A column, of 256 from n on, at which the held limits stop being `high`, by halving: the last such where they are true, since true limits
// never fall to the right. The slice's partition_point promises nothing of limits that do fall, and held ones may.
#[tactic(auto, using(model::proofs::Views::length_seen))]
fn last_held(right: bool, limits: &[i16], n: usize, high: u32) -> usize
    requires { (n < length limits.now) × (length limits.now ≤ 4096) }
    ensures { (LastHeld (seen right limits.now) n high result) × (result < length limits.now) }
{
    let mut low = n;
    let mut top = edge_end(limits.len(), n);
    while low + 1 < top {
        let mid = low + (top - low) / 2;
        if held_limit(right, limits, mid) == high {
            low = mid;
        } else {
            top = mid;
        }
    }
    low
}

// The column of the edge at `high`, which is taken for the limit of column n: the greatest that is placed there, by the held limits. It is
// looked for only where a position may show it.
#[tactic(auto, using(model::proofs::Views::length_seen))]
fn edge_column(right: bool, limits: &[i16], n: usize, high: u32) -> usize
    requires { (n ≤ length limits.now) × (length limits.now ≤ 4096) }
    ensures { (n < length limits.now → result < length limits.now) × (n < length limits.now → (high % 4 ≡ 1) → LastHeld (seen right limits.now) n high result) }
{
    if high % 4 != 1 {
        return n;
    }
    if limits.len() <= n + 1 {
        return n;
    }
    if held_limit(right, limits, n + 1) != high {
        return n;
    }
    last_held(right, limits, n, high)
}

// What is taken for the near edge right of the columns below n, where `high` is taken for the limit of column n.
#[tactic(auto, using(model::proofs::Views::length_seen))]
pub fn edge_of(right: bool, limits: &[i16], n: usize, high: u32) -> Edge
    requires { (n ≤ length limits.now) × (length limits.now ≤ 4096) }
    ensures { EdgeHeld (seen right limits.now) n high result }
{
    Edge {
        limit: high,
        column: edge_column(right, limits, n, high),
    }
}

// Writes the limits of the columns below `columns`, where `high` is taken for the limit of that column.
#[tactic(auto, using(crate::proofs::Below::below_most, model::proofs::Views::length_seen))]
pub fn draw_limits(
    right: bool,
    table: &[u16; 256],
    depths: &[u8],
    columns: usize,
    high: u32,
    limits: &mut [i16],
)
    requires table_value { (table_ok table.now ≡ true) × (high ≤ 17408) }
    requires columns_bound { (columns ≤ 4096) × (columns ≤ length limits.old) }
    ensures { Filled (pos 0) (λ c. signed (limit_below (place table.now (seen right depths.now)) high columns c)) 0 columns (seen right limits.old) (seen right limits.new) }
{
    let mut top = high;
    for c in (0..columns).rev() {
        top = places::place_of(right, table, depths, c).min(top);
        places::put_limit(right, limits, c, signed::limit_of(top));
    }
}
