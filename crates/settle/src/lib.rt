// A candidate tried in a view, judged, and written where it is accepted.
#![tactic(auto)]

ghost use Rattle.std.specs.Prelude.{◌≡◌, true, ◌≤◌, length};
ghost use Rattle.model.specs.Planes as planes;
ghost use Rattle.model.specs.Candidates.{filled};
ghost use Rattle.model.specs.Blocks.{block_depths, old_depths};
ghost use Rattle.model.specs.Refusals.{table_ok, candidate_then, saving_then, early_number};
ghost use Rattle.judge.specs.Judged.{verdict};
ghost use Rattle.strips.specs.Strips.{around, own};
ghost use Rattle.trial.specs.Trial.{Sized, Fits};
ghost use Rattle.commit.specs.Commit as commit;
ghost use Rattle.decide.specs.Decided.{settings_of, held_of};
ghost use Rattle.validate.specs.Numbers.{sides};
ghost use Rattle.settled.specs.Settled.{OwnSettled, Settled, JournalSaved};

use judge::Decision;
use model::{Block, Candidate, Refusal, Tear};
use strips::{Counterpart, Source};

// Tries the candidate in one view and, where the total stays in range and the journal has room, saves what stands in the block and writes it: texture, depths,
// samples, fronts, limits and marks are the view's own, and samples2, fronts2 and marks2 the other view's.
fn settle(
    tear: Tear,
    right: bool,
    view: u32,
    table: &[u16; 256],
    share: u8,
    tolerance: u8,
    total: u64,
    w: u32,
    h: u32,
    block: Block,
    texture: &[u16],
    candidate: Candidate,
    bytes: &[u8],
    depths: &mut [u8],
    samples: &mut [u16],
    fronts: &mut [u8],
    limits: &mut [i16],
    marks: &mut [u8],
    samples2: &[u16],
    fronts2: &[u8],
    marks2: &[u8],
    combined: &mut [u16],
    reference: &[u16],
    journal: &mut [u32],
) -> Result<Decision, Refusal>
    requires table_value { (table_ok table.now ≡ true) × (share ≤ 64) }
    requires sized { Sized w h (around right share tolerance samples2.now fronts2.now marks2.now combined.old reference.now) (own tear table.now texture.now depths.old limits.old) }
    requires sized_2 { commit.Sized w h texture.now depths.old (planes.view samples.old fronts.old limits.old marks.old) }
    requires fits { (Fits w h block (filled block candidate bytes.now)) × (candidate_then block candidate (length bytes.now) 0 ≡ 0) }
    ensures { (OwnSettled tear right table.now share tolerance total w h block (saving_then (sides w h) block journal.old 0) texture.now (filled block candidate bytes.now)
        samples2.now fronts2.now marks2.now reference.now
        depths.old depths.new
        (planes.view samples.old fronts.old limits.old marks.old)
        (planes.view samples.new fronts.new limits.new marks.new)
        combined.old combined.new (verdict total result))
        × (JournalSaved view block (block_depths w block depths.old) journal.old journal.new (verdict total result)) }
{
    let columns = w as usize;
    let rows = h as usize;
    let column = block.column as usize;
    let row = block.row as usize;
    let width = block.width as usize;
    let height = block.height as usize;
    let v = Source {
        tear,
        table,
        texture,
        depths: &*depths,
        limits: &*limits,
    };
    let o = Counterpart {
        right,
        share,
        tolerance,
        samples: samples2,
        fronts: fronts2,
        marks: marks2,
        combined: &*combined,
        reference,
    };
    let sums = trial::trial_candidate(
        v, o, columns, rows, column, row, width, height, candidate, bytes,
    );
    let most = judge::most_total(w, h);
    let late = chain::saving(w, h, block, journal);
    let decision = judge::judge_then(total, sums.old, sums.new, most, late)?;
    journal::save(view, block, columns, depths, journal);
    blocks::set_block(
        tear, right, table, share, tolerance, columns, rows, column, row, width, height, texture,
        candidate, bytes, depths, samples, fronts, limits, marks, samples2, fronts2, marks2,
        combined,
    );
    Ok(decision)
}

// Settles the candidate in the view that the call names.
pub fn settle_view<'a>(
    w: u32,
    h: u32,
    leftTable: &'a [u16; 256],
    rightTable: &'a [u16; 256],
    share: u8,
    tolerance: u8,
    tear: Tear,
    total: u64,
    left: &[u16],
    right: &[u16],
    reference: &[u16],
    leftDepths: &mut [u8],
    rightDepths: &mut [u8],
    leftSamples: &mut [u16],
    leftFronts: &mut [u8],
    leftLimits: &mut [i16],
    leftMarks: &mut [u8],
    rightSamples: &mut [u16],
    rightFronts: &mut [u8],
    rightLimits: &mut [i16],
    rightMarks: &mut [u8],
    combined: &mut [u16],
    journal: &mut [u32],
    view: u32,
    block: Block,
    candidate: Candidate,
    bytes: &[u8],
) -> Result<Decision, Refusal>
    requires { early_number (settings_of w h leftTable.now rightTable.now share tolerance tear total)
        (planes.pictures left.now right.now reference.now)
        (planes.depths leftDepths.old rightDepths.old)
        (held_of leftSamples.old leftFronts.old leftLimits.old leftMarks.old rightSamples.old rightFronts.old rightLimits.old rightMarks.old combined.old)
        view block candidate (length bytes.now) ≡ 0 }
    ensures { (Settled (settings_of w h leftTable.now rightTable.now share tolerance tear total)
        (planes.pictures left.now right.now reference.now)
        (planes.depths leftDepths.old rightDepths.old)
        (planes.depths leftDepths.new rightDepths.new)
        (held_of leftSamples.old leftFronts.old leftLimits.old leftMarks.old rightSamples.old rightFronts.old rightLimits.old rightMarks.old combined.old)
        (held_of leftSamples.new leftFronts.new leftLimits.new leftMarks.new rightSamples.new rightFronts.new rightLimits.new rightMarks.new combined.new)
        view block (filled block candidate bytes.now) (saving_then (sides w h) block journal.old 0) (verdict total result))
        × (JournalSaved view block (old_depths (sides w h) view block (planes.depths leftDepths.old rightDepths.old)) journal.old journal.new (verdict total result)) }
{
    if view == 1 {
        return settle(
            tear,
            true,
            view,
            rightTable,
            share,
            tolerance,
            total,
            w,
            h,
            block,
            right,
            candidate,
            bytes,
            rightDepths,
            rightSamples,
            rightFronts,
            rightLimits,
            rightMarks,
            leftSamples,
            leftFronts,
            leftMarks,
            combined,
            reference,
            journal,
        );
    }
    settle(
        tear,
        false,
        view,
        leftTable,
        share,
        tolerance,
        total,
        w,
        h,
        block,
        left,
        candidate,
        bytes,
        leftDepths,
        leftSamples,
        leftFronts,
        leftLimits,
        leftMarks,
        rightSamples,
        rightFronts,
        rightMarks,
        combined,
        reference,
        journal,
    )
}
