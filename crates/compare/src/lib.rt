// What is held, compared with a fresh drawing at one position.
#![tactic(auto)]

ghost use Rattle.std.specs.Prelude.{◌≡◌, ◌+◌, ◌*◌, ◌<◌, ◌≤◌, length, take, replicate, pos};
ghost use Rattle.model.specs.Lists.{row_of};
ghost use Rattle.model.specs.Marks.{mark_bytes, spare_bits};
ghost use Rattle.model.specs.Combined.{combined_of};
ghost use Rattle.model.specs.Planes.{held};
ghost use Rattle.model.specs.Reports.{same_mark};
ghost use Rattle.marks.specs.Puts.{held_pixel};
ghost use Rattle.compare.specs.Agree.{held_planes, drawn_planes, agrees, all_agree, HeldAt};

use model::Pixel;

// The planes of one view, as they are held.
#[derive(Clone, Copy)]
pub struct HeldView<'a> {
    pub samples: &'a [u16],
    pub fronts: &'a [u8],
    pub limits: &'a [i16],
    pub marks: &'a [u8],
}

// A row of each plane of one view, drawn afresh: it stands at the front.
#[derive(Drop)]
pub struct DrawnRow {
    pub samples: [u16; 4096],
    pub fronts: [u8; 4096],
    pub limits: [i16; 4096],
    pub marks: [u8; 512],
}

impl DrawnRow {
    // Room for a row: zeros, and no hole.
    pub fn new() -> DrawnRow
        ensures samples { result.samples ≡ replicate 4096 0 }
        ensures fronts { result.fronts ≡ replicate 4096 0 }
        ensures limits { result.limits ≡ replicate 4096 (pos 0) }
        ensures marks { result.marks ≡ replicate 512 0 }
    {
        DrawnRow {
            samples: [0; 4096],
            fronts: [0; 4096],
            limits: [0; 4096],
            marks: [0; 512],
        }
    }

    // What the row shows at column x.
    pub fn pixel(&self, x: usize) -> Pixel
        requires { x < 4096 }
        ensures { result ≡ held_pixel self.now.samples self.now.fronts self.now.marks x }
    {
        marks::held_pixel(&self.samples, &self.fronts, &self.marks, x)
    }
}

// The bits of a row of marks past position w − 1.
fn spare_bits(row: &[u8], w: usize) -> u8
    ensures { result ≡ spare_bits row.now w }
{
    row.get(w / 8).copied().unwrap_or(0) >> (w % 8)
}

// Two rows of marks are equal at column x; spare bits count with the row's last column.
#[tactic(auto, unfolding(model::specs::Reports::same_mark))]
fn same_mark(w: usize, held: &[u8], fresh: &[u8], x: usize) -> bool
    requires { (x < w) × ((x < 8 * length held.now) × (x < 8 * length fresh.now)) }
    ensures { result ≡ same_mark w held.now fresh.now x }
{
    marks::mark_at(held, x) == marks::mark_at(fresh, x)
        && (x + 1 < w || spare_bits(held, w) == spare_bits(fresh, w))
}

// The marks at column x of row y of a plane are those of the drawn row.
#[tactic(auto, using(planes::proofs::Splices::part_row))]
fn same_marks(w: usize, y: usize, x: usize, marks: &[u8], fresh: &[u8]) -> bool
    requires x_lt_w { (x < w) × (w ≤ 4096) }
    requires w_in_bounds { (y * mark_bytes w + mark_bytes w ≤ length marks.now) × (mark_bytes w ≤ length fresh.now) }
    ensures { result ≡ same_mark w (row_of marks.now (mark_bytes w) y) (take (mark_bytes w) fresh.now) x }
{
    let bytes = w.div_ceil(8);
    let start = y * bytes;
    let end = start + bytes;
    same_mark(w, &marks[start..end], &fresh[..bytes], x)
}

// All that is held of a view at column x of row y is what the drawn row has there.
#[tactic(auto, unfolding(crate::specs::Agree::agrees))]
fn same_view(w: usize, y: usize, x: usize, view: &HeldView, row: &DrawnRow) -> bool
    requires held_at { HeldAt w (held_planes view.now) y x }
    requires x_lt_w { (x < w) × (w ≤ 4096) }
    ensures { result ≡ agrees w (held_planes view.now) (drawn_planes row.now) y x }
{
    let k = y * w + x;
    view.samples[k] == row.samples[x]
        && view.fronts[k] == row.fronts[x]
        && view.limits[k] == row.limits[x]
        && same_marks(w, y, x, view.marks, &row.marks)
}

// Every held entry at column x of row y is what the drawn rows have there; `shown` is the drawn combined sample.
#[tactic(auto, unfolding(crate::specs::Agree::all_agree))]
pub fn same_at(
    w: usize,
    y: usize,
    x: usize,
    left: &HeldView,
    right: &HeldView,
    combined: &[u16],
    leftRow: &DrawnRow,
    rightRow: &DrawnRow,
    shown: u16,
) -> bool
    requires held_at { HeldAt w (held_planes left.now) y x }
    requires held_at_2 { HeldAt w (held_planes right.now) y x }
    requires x_in_bounds { y * w + x < length combined.now }
    requires x_lt_w { (x < w) × (w ≤ 4096) }
    ensures { result ≡ all_agree w (held (held_planes left.now) (held_planes right.now) combined.now)
        (drawn_planes leftRow.now) (drawn_planes rightRow.now) shown y x }
{
    same_view(w, y, x, left, leftRow)
        && same_view(w, y, x, right, rightRow)
        && combined[y * w + x] == shown
}

// The combined sample at column x of the rows that are drawn of the left and the right view.
#[tactic(auto, unfolding(sums::specs::Sides::paired))]
pub fn shown_at(share: u8, tolerance: u8, left: &DrawnRow, right: &DrawnRow, x: usize) -> u16
    requires share_bound { share ≤ 64 }
    requires x_bound { x < 4096 }
    ensures { result ≡ combined_of share tolerance
        (held_pixel left.now.samples left.now.fronts left.now.marks x)
        (held_pixel right.now.samples right.now.fronts right.now.marks x) }
{
    sums::paired(false, share, tolerance, left.pixel(x), right.pixel(x))
}
