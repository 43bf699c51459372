// The lists of OPEN, SET, TAKE BACK and RENDER: what each refuses before its work, the first number that applies.
#![tactic(auto)]

ghost use Rattle.std.specs.Prelude.{◌≡◌, false, ◌<◌, ◌≤◌, ltb};
ghost use Rattle.model.specs.Planes.{pictures};
ghost use Rattle.model.specs.Refusals.{answer_number, unless, pictures_ok, candidate_then, taking_then};
ghost use Rattle.validate.specs.Numbers.{common_number, own_number, sides};
ghost use Rattle.lists.specs.Numbers.{strip_fits, strip_number};

use model::{Block, Candidate, Refusal, Tear};
use validate::Lengths;

// No entry of a picture is above the greatest sample.
#[tactic(auto, unfolding(model::specs::Refusals::pictures_ok))]
fn pictures_ok(left: &[u16], right: &[u16], reference: &[u16]) -> bool
    ensures { result ≡ pictures_ok (pictures left.now right.now reference.now) }
{
    ranges::picture_ok(left) && ranges::picture_ok(right) && ranges::picture_ok(reference)
}

// 1, 2, 3, 4, 20, 13 or 21, the first that applies; `words` is the length of the journal.
pub fn open_refusal(
    w: u32,
    h: u32,
    leftTable: &[u16; 256],
    rightTable: &[u16; 256],
    share: u8,
    tear: Tear,
    lengths: Lengths,
    words: usize,
    left: &[u16],
    right: &[u16],
    reference: &[u16],
) -> Result<(), Refusal>
    ensures { answer_number result ≡ common_number w h leftTable.now rightTable.now share tear lengths
        (unless (ltb 0 words) 13 (unless (pictures_ok (pictures left.now right.now reference.now)) 21 0)) }
{
    validate::common(w, h, leftTable, rightTable, share, tear, lengths)?;
    if words < 1 {
        return Err(Refusal::Journal);
    }
    if !pictures_ok(left, right, reference) {
        return Err(Refusal::Sample);
    }
    Ok(())
}

// 1, 2, 3, 4, 20, 6, 5, then the candidate's own number, the first that applies: all that SET refuses before it tries the candidate, of whose bytes there are n.
pub fn set_refusal<'a>(
    w: u32,
    h: u32,
    leftTable: &'a [u16; 256],
    rightTable: &'a [u16; 256],
    share: u8,
    tear: Tear,
    lengths: Lengths,
    view: u32,
    block: Block,
    candidate: Candidate,
    n: usize,
) -> Result<(), Refusal>
    ensures { answer_number result ≡ common_number w h leftTable.now rightTable.now share tear lengths (own_number w h view block (candidate_then block candidate n 0)) }
{
    validate::common(w, h, leftTable, rightTable, share, tear, lengths)?;
    validate::own(w, h, view, block)?;
    candidates::candidate_refusal(block, candidate, n)
}

// 1, 2, 3, 4, 20, 13 or 12, the first that applies: all that TAKE BACK refuses before it tries what was saved.
pub fn take_back_refusal<'a>(
    w: u32,
    h: u32,
    leftTable: &'a [u16; 256],
    rightTable: &'a [u16; 256],
    share: u8,
    tear: Tear,
    lengths: Lengths,
    journal: &[u32],
) -> Result<(), Refusal>
    ensures { answer_number result ≡ common_number w h leftTable.now rightTable.now share tear lengths (taking_then (sides w h) journal.now 0) }
{
    validate::common(w, h, leftTable, rightTable, share, tear, lengths)?;
    chain::taking(w, h, journal)
}

// Every plane of a row of w positions has its exact length.
#[tactic(auto, unfolding(crate::specs::Numbers::strip_fits))]
fn strip_sized(
    w: usize,
    texture: usize,
    depths: usize,
    samples: usize,
    marks: usize,
    fronts: usize,
) -> bool
    requires { w ≤ 4096 }
    ensures { result ≡ strip_fits w texture depths samples marks fronts }
{
    texture == w && depths == w && samples == w && marks == (w + 7) / 8 && fronts == w
}

// 1, 2, 3, 20 or 6, the first that applies; of a plane it is told the length.
#[tactic(auto, unfolding(crate::specs::Numbers::strip_number))]
pub fn strip_refusal(
    w: u32,
    left: &[u16; 256],
    right: &[u16; 256],
    tear: Tear,
    view: u32,
    texture: usize,
    depths: usize,
    samples: usize,
    marks: usize,
    fronts: usize,
) -> Result<(), Refusal>
    ensures { answer_number result ≡ strip_number w left.now right.now tear view texture depths samples marks fronts }
{
    if !ranges::side_ok(w) {
        return Err(Refusal::Size);
    }
    if !strip_sized(w as usize, texture, depths, samples, marks, fronts) {
        return Err(Refusal::Plane);
    }
    if !ranges::tables_ok(left, right) {
        return Err(Refusal::Table);
    }
    if !ranges::tear_ok(tear) {
        return Err(Refusal::Gap);
    }
    if 1 < view {
        return Err(Refusal::View);
    }
    Ok(())
}
