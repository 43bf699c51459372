// The tests that several calls have in common, in the order of their lists. Of a plane they look at its length alone; the entries of a picture are a test apart, which only OPEN and MOVE make.
#![tactic(auto)]

ghost use Rattle.std.specs.Prelude.{◌≡◌, ◌≤◌};
ghost use Rattle.model.specs.Refusals.{answer_number, block_ok};
ghost use Rattle.validate.specs.Numbers.{view_fits, planes_fit, common_number, sides, own_number};

use model::{Block, Refusal, Tear};

// The lengths of the planes of one view.
#[derive(Drop)]
pub struct ViewLengths {
    pub texture: usize,
    pub depths: usize,
    pub samples: usize,
    pub fronts: usize,
    pub limits: usize,
    pub marks: usize,
}

// The lengths of all planes that a call of a session is lent.
#[derive(Drop)]
pub struct Lengths {
    pub left: ViewLengths,
    pub right: ViewLengths,
    pub reference: usize,
    pub combined: usize,
}

// Every plane of a view has its exact length: n entries, and m bytes of marks.
#[tactic(auto, unfolding(crate::specs::Numbers::view_fits))]
fn view_sized(n: usize, m: usize, lengths: ViewLengths) -> bool
    ensures { result ≡ view_fits n m lengths }
{
    lengths.texture == n
        && lengths.depths == n
        && lengths.samples == n
        && lengths.fronts == n
        && lengths.limits == n
        && lengths.marks == m
}

// Every plane of a session of w columns by h rows has its exact length.
#[tactic(auto, unfolding(crate::specs::Numbers::planes_fit))]
fn planes_sized(w: u32, h: u32, lengths: Lengths) -> bool
    requires { (w ≤ 4096) × (h ≤ 4096) }
    ensures { result ≡ planes_fit w h lengths }
{
    let n = (w as usize) * (h as usize);
    let m = (w as usize + 7) / 8 * (h as usize);
    view_sized(n, m, lengths.left)
        && view_sized(n, m, lengths.right)
        && lengths.reference == n
        && lengths.combined == n
}

// 1, 2, 3, 4 or 20, the first that applies.
#[tactic(auto, using(crate::proofs::Facts::side_most), unfolding(crate::specs::Numbers::common_number))]
pub fn common(
    w: u32,
    h: u32,
    left: &[u16; 256],
    right: &[u16; 256],
    share: u8,
    tear: Tear,
    lengths: Lengths,
) -> Result<(), Refusal>
    ensures { answer_number result ≡ common_number w h left.now right.now share tear lengths 0 }
{
    if !ranges::side_ok(w) || !ranges::side_ok(h) {
        return Err(Refusal::Size);
    }
    if !planes_sized(w, h, lengths) {
        return Err(Refusal::Plane);
    }
    if !ranges::tables_ok(left, right) {
        return Err(Refusal::Table);
    }
    if 64 < share {
        return Err(Refusal::Share);
    }
    if !ranges::tear_ok(tear) {
        return Err(Refusal::Gap);
    }
    Ok(())
}

// The block has a width and a height and reaches past no edge. The edges are summed in 64 bits, where every sum fits.
#[tactic(auto, unfolding(model::specs::Refusals::block_ok))]
fn block_ok(w: u32, h: u32, block: Block) -> bool
    ensures { result ≡ block_ok (sides w h) block }
{
    let right = u64::from(block.column) + u64::from(block.width);
    let bottom = u64::from(block.row) + u64::from(block.height);
    0 < block.width && right <= u64::from(w) && 0 < block.height && bottom <= u64::from(h)
}

// 6 or 5, the first that applies.
#[tactic(auto, unfolding(crate::specs::Numbers::own_number))]
pub fn own(w: u32, h: u32, view: u32, block: Block) -> Result<(), Refusal>
    ensures { answer_number result ≡ own_number w h view block 0 }
{
    if 1 < view {
        return Err(Refusal::View);
    }
    if !block_ok(w, h, block) {
        return Err(Refusal::Bounds);
    }
    Ok(())
}
