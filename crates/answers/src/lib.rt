// What an exported entry answers: the number of the refusal, 0 where the call is accepted, and values through pointers, which a refused call leaves alone.
#![tactic(auto)]

ghost use Rattle.std.specs.Prelude.{ℕ, ◌≡◌};
ghost use Rattle.model.specs.declared.Settings.{Settings};
ghost use Rattle.model.specs.Refusals.{answer_number};
ghost use Rattle.model.specs.Replies.{open_reply, edit_reply};
ghost use Rattle.judge.specs.Judged.{verdict};
ghost use Rattle.answers.specs.Answers.{OpenedTold, TriedTold, EditedTold, ReportTold, CountTold};

use judge::Decision;
use model::{Edited, Refusal, Report, Settings};

// RENDER's: the number alone.
pub fn answered(answer: Result<(), Refusal>) -> u32
    ensures { result ≡ answer_number answer }
{
    match answer {
        Ok(()) => 0,
        Err(refusal) => u32::from(refusal),
    }
}

// OPEN's and MOVE's: the new total.
pub fn opened(answer: Result<Settings, Refusal>, total: &mut u64) -> u32
    ensures { (s : Settings) → OpenedTold (open_reply s answer) result total.old total.new }
{
    match answer {
        Ok(settings) => {
            *total = settings.total;
            0
        }
        Err(refusal) => u32::from(refusal),
    }
}

// GET's: the change of the total.
pub fn tried(answer: Result<Decision, Refusal>, change: &mut i64) -> u32
    ensures { (total : ℕ) → TriedTold (record { number = (verdict total answer).number; change = (verdict total answer).change }) result change.old change.new }
{
    match answer {
        Ok(decision) => {
            *change = decision.change;
            0
        }
        Err(refusal) => u32::from(refusal),
    }
}

// SET's and TAKE BACK's: the change and the new total.
pub fn edited(answer: Result<Edited, Refusal>, change: &mut i64, total: &mut u64) -> u32
    ensures { (s : Settings) → EditedTold (edit_reply s answer) result change.old change.new total.old total.new }
{
    match answer {
        Ok(edit) => {
            *change = edit.change;
            *total = edit.settings.total;
            0
        }
        Err(refusal) => u32::from(refusal),
    }
}

// CHECK's: kind 0 is sound, 1 a difference, with its row and column, and 2 the total.
pub fn reported(
    answer: Result<Report, Refusal>,
    kind: &mut u32,
    row: &mut u32,
    column: &mut u32,
) -> u32
    ensures { ReportTold answer result kind.old row.old column.old kind.new row.new column.new }
{
    match answer {
        Ok(Report::Sound) => {
            *kind = 0;
            0
        }
        Ok(Report::Difference { row: y, column: x }) => {
            *kind = 1;
            *row = y;
            *column = x;
            0
        }
        Ok(Report::Total) => {
            *kind = 2;
            0
        }
        Err(refusal) => u32::from(refusal),
    }
}

// HOLES': the count.
pub fn counted(answer: Result<u64, Refusal>, count: &mut u64) -> u32
    ensures { CountTold answer result count.old count.new }
{
    match answer {
        Ok(n) => {
            *count = n;
            0
        }
        Err(refusal) => u32::from(refusal),
    }
}
