// The chain of a journal's records: whether it is one, where the next record stands, and what SET and TAKE BACK refuse by it.
#![tactic(auto)]

ghost use Rattle.std.specs.Prelude.{◌≡◌, true, ◌+◌, ◌*◌, ◌≤◌, ◌<◌, length};
ghost use Rattle.model.specs.Journals.{next_index};
ghost use Rattle.model.specs.Refusals.{answer_number, record_ok, chain_ok, journal_ok, saving_then, taking_then};
ghost use Rattle.validate.specs.Numbers.{sides};

use model::{Block, Refusal};

// The record at an index lies within the words, and its view, block and depths are ones.
fn record_ok(w: u32, h: u32, journal: &[u32], at: usize) -> bool
    requires { (at < 4294967296) × ((w ≤ 4096) × (h ≤ 4096)) }
    ensures { result ≡ record_ok (sides w h) journal.now at }
{
    let first = at + 6;
    if journal.len() < first {
        return false;
    }
    let view = journal[at + 1];
    let block = Block {
        column: journal[at + 2],
        row: journal[at + 3],
        width: journal[at + 4],
        height: journal[at + 5],
    };
    if validate::own(w, h, view, block).is_err() {
        return false;
    }
    let end = first + (block.width as usize) * (block.height as usize);
    if journal.len() < end {
        return false;
    }
    ranges::depths_ok(&journal[first..end])
}

// The chain from an index on falls to zero, and each of its records is one.
fn chain_ok(w: u32, h: u32, journal: &[u32], newest: usize) -> bool
    requires { (newest < 4294967296) × ((w ≤ 4096) × (h ≤ 4096)) }
    ensures { result ≡ chain_ok (sides w h) journal.now newest newest }
{
    let mut at = newest;
    while 0 < at {
        if !record_ok(w, h, journal, at) {
            return false;
        }
        let before = journal[at] as usize;
        if at <= before {
            return false;
        }
        at = before;
    }
    true
}

// 13 does not apply.
#[tactic(auto, unfolding(model::specs::Refusals::journal_ok))]
fn journal_ok(w: u32, h: u32, journal: &[u32]) -> bool
    requires { (w ≤ 4096) × (h ≤ 4096) }
    ensures { result ≡ journal_ok (sides w h) journal.now }
{
    !journal.is_empty() && chain_ok(w, h, journal, journal[0] as usize)
}

// Where the next record stands: directly after the newest, or after word 0.
pub fn next_index(journal: &[u32]) -> usize
    requires { (0 < length journal.now) × (next_index journal.now ≤ length journal.now) }
    ensures { result ≡ next_index journal.now }
{
    let newest = journal[0] as usize;
    if newest == 0 {
        return 1;
    }
    newest + 6 + (journal[newest + 4] as usize) * (journal[newest + 5] as usize)
}

// 13 or 11, the first that applies: what SET tests of the journal.
pub fn saving(w: u32, h: u32, block: Block, journal: &[u32]) -> Result<(), Refusal>
    requires { (w ≤ 4096) × ((h ≤ 4096) × ((block.width ≤ 4096) × (block.height ≤ 4096))) }
    ensures { answer_number result ≡ saving_then (sides w h) block journal.now 0 }
{
    if !journal_ok(w, h, journal) {
        return Err(Refusal::Journal);
    }
    let next = next_index(journal);
    let words = 6 + (block.width as usize) * (block.height as usize);
    if journal.len() - next < words || 4294967295 < next {
        return Err(Refusal::JournalFull);
    }
    Ok(())
}

// 13 or 12, the first that applies: what TAKE BACK tests of the journal.
pub fn taking(w: u32, h: u32, journal: &[u32]) -> Result<(), Refusal>
    requires { (w ≤ 4096) × (h ≤ 4096) }
    ensures { answer_number result ≡ taking_then (sides w h) journal.now 0 }
{
    if !journal_ok(w, h, journal) {
        return Err(Refusal::Journal);
    }
    if journal[0] == 0 {
        return Err(Refusal::NothingToTakeBack);
    }
    Ok(())
}
