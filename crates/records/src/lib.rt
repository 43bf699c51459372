// What TAKE BACK reads of the journal and writes there: the newest record, its words narrowed to depths, and the record struck.
#![tactic(auto)]

ghost use Rattle.std.specs.Prelude.{◌≡◌, true, ◌+◌, ◌*◌, ◌<◌, ◌≤◌, length};
ghost use Rattle.model.specs.Journals.{newest, record_end};
ghost use Rattle.model.specs.Refusals.{answer_number, up_to};
ghost use Rattle.records.specs.Taken.{NewestRecord, Struck};
ghost use Rattle.records.specs.Rows.{Narrowed};

use model::{Block, Refusal};

// Words as depths.
#[tactic(auto, using(model::proofs::Refusals::up_to_most))]
pub fn narrow(words: &[u32], depths: &mut [u8])
    requires { (length depths.old ≡ length words.now) × (up_to 255 words.now ≡ true) }
    ensures { depths.new ≡ words.now }
{
    for (i, word) in words.iter().enumerate() {
        depths[i] = *word as u8;
    }
}

// A record of the journal.
#[derive(Drop)]
pub struct Record {
    pub before: u32,
    pub view: u32,
    pub block: Block,
    pub from: usize,
    pub to: usize,
}

// The newest record: where its depths stand, from one index up to the other, and the rest of it.
pub fn newest_record(journal: &[u32]) -> Record
    requires { (0 < length journal.now) × (record_end journal.now (newest journal.now) ≤ length journal.now) }
    ensures { NewestRecord journal.now result }
{
    let newest = journal[0] as usize;
    let from = newest + 6;
    let width = journal[newest + 4];
    let height = journal[newest + 5];
    let to = from + (width as usize) * (height as usize);
    Record {
        before: journal[newest],
        view: journal[newest + 1],
        block: Block {
            column: journal[newest + 2],
            row: journal[newest + 3],
            width,
            height,
        },
        from,
        to,
    }
}

// Gives word 0 the index of the record before, unless the call is refused, and hands the call's answer on.
#[tactic(auto, using(model::proofs::Journals::set_newest))]
pub fn strike<T>(answer: Result<T, Refusal>, before: u32, journal: &mut [u32]) -> Result<T, Refusal>
    requires { 0 < length journal.old }
    ensures answer { result ≡ answer }
    ensures struck { Struck (answer_number answer) before journal.old journal.new }
{
    let value = answer?;
    journal[0] = before;
    Ok(value)
}

// The rows that are taken next: as many as the room holds, and no more than are left.
#[tactic(auto, using(fill::proofs::Rooms::room_holds, fill::proofs::Rooms::room_some))]
fn rows_next(room: usize, width: usize, left: usize) -> usize
    requires { (0 < width) × ((width ≤ room) × (0 < left)) }
    ensures { (0 < result) × ((result * width ≤ room) × (result ≤ left)) }
{
    left.min(room / width)
}

// Narrows the words of the next rows at the room's front, and answers how many rows; `done` rows are passed and `left` are left.
#[tactic(auto, using(crate::proofs::Narrowing::part_within))]
pub fn narrow_rows(words: &[u32], width: usize, done: usize, left: usize, room: &mut [u8]) -> usize
    requires width_nonzero { (0 < width) × ((0 < left) × ((done + left ≤ 4096) × (length words.now ≡ width * (done + left)))) }
    requires words_value { (up_to 255 words.now ≡ true) × ((width ≤ 4096) × (length room.old ≡ 4096)) }
    ensures { Narrowed words.now width done left room.new result }
{
    let n = rows_next(room.len(), width, left);
    let end = n * width;
    let from = done * width;
    let to = from + end;
    narrow(&words[from..to], &mut room[..end]);
    n
}
