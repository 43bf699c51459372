// The journal's records: what a SET saves, and what TAKE BACK reads, narrows and strikes.
#![tactic(auto)]

ghost use Rattle.std.specs.Prelude.{◌≡◌, true, ◌+◌, ◌*◌, ◌<◌, length};
ghost use Rattle.model.specs.Blocks.{block_depths};
ghost use Rattle.model.specs.Journals.{record_size, record_of, saved};
ghost use Rattle.model.specs.Refusals.{room_ok};
ghost use Rattle.planes.specs.Parts.{block_of};
ghost use Rattle.journal.specs.Words.{head_of, InPlane};

use model::Block;

// Depths as words.
fn widen(depths: &[u8], words: &mut [u32])
    requires { length words.old ≡ length depths.now }
    ensures { words.new ≡ depths.now }
{
    for (i, depth) in depths.iter().enumerate() {
        words[i] = u32::from(*depth);
    }
}

// The depths that stand in a block, one a word, row by row.
#[tactic(auto, using(crate::proofs::Records::row_facts))]
fn save_rows(
    w: usize,
    column: usize,
    row: usize,
    width: usize,
    height: usize,
    depths: &[u8],
    words: &mut [u32],
)
    requires { (InPlane w (block_of column row width height) depths.now) × (length words.old ≡ width * height) }
    ensures { words.new ≡ block_depths w (block_of column row width height) depths.now }
{
    for j in 0..height {
        let from = (row + j) * w + column;
        let to = from + width;
        let at = j * width;
        let end = at + width;
        widen(&depths[from..to], &mut words[at..end]);
    }
}

// The first words of a record: the index of the one before, the view and the block.
fn write_head(before: u32, view: u32, block: Block, words: &mut [u32])
    requires { length words.old ≡ 6 }
    ensures { words.new ≡ head_of before view block }
{
    words.copy_from_slice(&[
        before,
        view,
        block.column,
        block.row,
        block.width,
        block.height,
    ]);
}

// A record, with the depths as they stand in the block.
fn write_record(before: u32, view: u32, block: Block, w: usize, depths: &[u8], words: &mut [u32])
    requires { (InPlane w block depths.now) × (length words.old ≡ record_size block) }
    ensures { words.new ≡ record_of before view block (block_depths w block depths.now) }
{
    let column = block.column as usize;
    let row = block.row as usize;
    let width = block.width as usize;
    let height = block.height as usize;
    write_head(before, view, block, &mut words[..6]);
    save_rows(w, column, row, width, height, depths, &mut words[6..]);
}

// Saves view, block and the depths that stand in it as the newest record.
#[tactic(auto, using(model::proofs::Refusals::room_end, model::proofs::Refusals::room_index))]
pub fn save(view: u32, block: Block, w: usize, depths: &[u8], journal: &mut [u32])
    requires { (InPlane w block depths.now) × (room_ok block journal.old ≡ true) }
    ensures { journal.new ≡ saved journal.old view block (block_depths w block depths.now) }
{
    let before = journal[0];
    let next = chain::next_index(journal);
    let end = next + 6 + (block.width as usize) * (block.height as usize);
    write_record(before, view, block, w, depths, &mut journal[next..end]);
    journal[0] = next as u32;
}
