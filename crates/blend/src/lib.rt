// The combined samples of a stretch of a row, from what the two views hold.
#![tactic(auto)]

ghost use Rattle.std.specs.Prelude.{◌≡◌, ◌+◌, ◌-◌, ◌*◌, ◌≤◌, ◌<◌, length};
ghost use Rattle.planes.specs.Parts.{splice};
ghost use Rattle.marks.specs.Puts.{held_pixel};
ghost use Rattle.sums.specs.Sides.{paired};
ghost use Rattle.blend.specs.Blend.{Reaches, SideIn, held_rows, combined_part};

// The combined sample at entry i, where `right` says whether the first three rows are the right view's.
fn blend_at(
    right: bool,
    share: u8,
    tolerance: u8,
    samples: &[u16],
    fronts: &[u8],
    marks: &[u8],
    samples2: &[u16],
    fronts2: &[u8],
    marks2: &[u8],
    i: usize,
) -> u16
    requires share_bound { share ≤ 64 }
    requires reaches { (Reaches (i + 1) samples.now fronts.now marks.now) × (Reaches (i + 1) samples2.now fronts2.now marks2.now) }
    ensures { result ≡ paired right share tolerance (held_pixel samples.now fronts.now marks.now i) (held_pixel samples2.now fronts2.now marks2.now i) }
{
    let own = marks::held_pixel(samples, fronts, marks, i);
    let other = marks::held_pixel(samples2, fronts2, marks2, i);
    sums::paired(right, share, tolerance, own, other)
}

// Writes the combined samples of a row from entry `from` on into `part`. `right` says whether the first three rows are the right view's.
pub fn blend_part(
    right: bool,
    share: u8,
    tolerance: u8,
    samples: &[u16],
    fronts: &[u8],
    marks: &[u8],
    samples2: &[u16],
    fronts2: &[u8],
    marks2: &[u8],
    from: usize,
    part: &mut [u16],
)
    requires share_bound { share ≤ 64 }
    requires reaches { (Reaches (from + length part.old) samples.now fronts.now marks.now) × (Reaches (from + length part.old) samples2.now fronts2.now marks2.now) }
    ensures { part.new ≡ combined_part right share tolerance (held_pixel samples.now fronts.now marks.now) (held_pixel samples2.now fronts2.now marks2.now) from (length part.old) }
{
    for (i, entry) in part.iter_mut().enumerate() {
        *entry = blend_at(
            right,
            share,
            tolerance,
            samples,
            fronts,
            marks,
            samples2,
            fronts2,
            marks2,
            from + i,
        );
    }
}

// Writes the combined samples of entries `from` up to `to` of row y into the picture. `right` says whether the first three planes are the
// right view's.
pub fn blend_row(
    right: bool,
    share: u8,
    tolerance: u8,
    w: usize,
    y: usize,
    from: usize,
    to: usize,
    samples: &[u16],
    fronts: &[u8],
    marks: &[u8],
    samples2: &[u16],
    fronts2: &[u8],
    marks2: &[u8],
    combined: &mut [u16],
)
    requires share_bound { (share ≤ 64) × ((w ≤ 4096) × ((from ≤ to) × (to ≤ w))) }
    requires side_in { (SideIn w y samples.now fronts.now marks.now) × (SideIn w y samples2.now fronts2.now marks2.now) }
    requires w_in_bounds { y * w + w ≤ length combined.old }
    ensures { combined.new ≡ splice combined.old (y * w + from)
        (combined_part right share tolerance (held_rows w samples.now fronts.now marks.now y) (held_rows w samples2.now fronts2.now marks2.now y) from (to - from)) }
{
    let start = y * w;
    let end = start + w;
    let bytes = w.div_ceil(8);
    let first = y * bytes;
    let last = first + bytes;
    blend_part(
        right,
        share,
        tolerance,
        &samples[start..end],
        &fronts[start..end],
        &marks[first..last],
        &samples2[start..end],
        &fronts2[start..end],
        &marks2[first..last],
        from,
        &mut combined[start + from..start + to],
    );
}
