// Depths that a record of the journal saved, put back into their block: its words are narrowed in a room, as many rows as fit, and these are tried, and set, as a
// full block of their own.
#![tactic(auto)]

ghost use Rattle.std.specs.Prelude.{◌≡◌, true, ◌+◌, ◌*◌, ◌<◌, ◌≤◌, length};
ghost use Rattle.model.specs.Planes as planes;
ghost use Rattle.model.specs.Refusals.{table_ok, up_to};
ghost use Rattle.planes.specs.Parts.{block_of};
ghost use Rattle.judge.specs.Judged.{verdict};
ghost use Rattle.strips.specs.Strips.{around, own};
ghost use Rattle.trial.specs.Trial.{Sized, Fits, BlockTrial};
ghost use Rattle.commit.specs.Commit as commit;
ghost use Rattle.combine.specs.Combine.{OtherSized, BlockSet};
ghost use Rattle.decide.specs.Decided.{settings_of, held_of};
ghost use Rattle.settled.specs.Settled.{OwnSettled, Settled};
ghost use Rattle.restore.specs.Saved.{SavedIn};

use judge::Decision;
use model::{Block, Candidate, Refusal, Tear};
use strips::{Counterpart, Source, Sums};

// The two sums of the trial of a block with the depths that were saved.
fn trial_saved(
    tear: Tear,
    right: bool,
    table: &[u16; 256],
    share: u8,
    tolerance: u8,
    w: usize,
    h: usize,
    column: usize,
    row: usize,
    width: usize,
    height: usize,
    texture: &[u16],
    depths: &[u8],
    limits: &[i16],
    words: &[u32],
    room: &mut [u8],
    samples: &[u16],
    fronts: &[u8],
    marks: &[u8],
    combined: &[u16],
    reference: &[u16],
) -> Sums
    requires table_value { (table_ok table.now ≡ true) × (share ≤ 64) }
    requires sized { Sized w h (around right share tolerance samples.now fronts.now marks.now combined.now reference.now) (own tear table.now texture.now depths.now limits.now) }
    requires fits { (Fits w h (block_of column row width height) words.now) × ((up_to 255 words.now ≡ true) × (length room.old ≡ 4096)) }
    ensures { BlockTrial w (around right share tolerance samples.now fronts.now marks.now combined.now reference.now)
        (own tear table.now texture.now depths.now limits.now) (block_of column row width height) words.now height result.old result.new }
{
    let v = Source {
        tear,
        table,
        texture,
        depths,
        limits,
    };
    let o = Counterpart {
        right,
        share,
        tolerance,
        samples,
        fronts,
        marks,
        combined,
        reference,
    };
    let mut old = 0u64;
    let mut new = 0u64;
    let mut done = 0;
    // not a range: only the call says how many rows the room took
    while done < height {
        let n = records::narrow_rows(words, width, done, height - done, room);
        let end = n * width;
        let part = trial::trial_block(v, o, w, h, column, row + done, width, n, &room[..end]);
        old += part.old;
        new += part.new;
        done += n;
    }
    Sums { old, new }
}

// Writes the depths that were saved into the block in one view's depths, and brings that view's planes and the combined picture up to date.
fn set_saved(
    tear: Tear,
    right: bool,
    table: &[u16; 256],
    share: u8,
    tolerance: u8,
    w: usize,
    h: usize,
    column: usize,
    row: usize,
    width: usize,
    height: usize,
    texture: &[u16],
    words: &[u32],
    room: &mut [u8],
    depths: &mut [u8],
    samples: &mut [u16],
    fronts: &mut [u8],
    limits: &mut [i16],
    marks: &mut [u8],
    samples2: &[u16],
    fronts2: &[u8],
    marks2: &[u8],
    combined: &mut [u16],
)
    requires table_value { (table_ok table.now ≡ true) × (share ≤ 64) }
    requires sized { commit.Sized w h texture.now depths.old (planes.view samples.old fronts.old limits.old marks.old) }
    requires other_sized { OtherSized w h samples2.now fronts2.now marks2.now combined.old }
    requires fits { (Fits w h (block_of column row width height) words.now) × ((up_to 255 words.now ≡ true) × (length room.old ≡ 4096)) }
    ensures { BlockSet tear right table.now share tolerance w h (block_of column row width height) texture.now words.now samples2.now fronts2.now marks2.now
        depths.old depths.new
        (planes.view samples.old fronts.old limits.old marks.old)
        (planes.view samples.new fronts.new limits.new marks.new)
        combined.old combined.new }
{
    let mut done = 0;
    // not a range: only the call says how many rows the room took
    while done < height {
        let n = records::narrow_rows(words, width, done, height - done, room);
        let end = n * width;
        blocks::set_block(
            tear,
            right,
            table,
            share,
            tolerance,
            w,
            h,
            column,
            row + done,
            width,
            n,
            texture,
            Candidate::Full,
            &room[..end],
            depths,
            samples,
            fronts,
            limits,
            marks,
            samples2,
            fronts2,
            marks2,
            combined,
        );
        done += n;
    }
}

// Tries what was saved in one view and, where the total stays in range, writes it: texture, depths, samples, fronts, limits and marks are the view's own, and
// samples2, fronts2 and marks2 the other view's.
fn restore(
    tear: Tear,
    right: bool,
    table: &[u16; 256],
    share: u8,
    tolerance: u8,
    total: u64,
    w: u32,
    h: u32,
    block: Block,
    texture: &[u16],
    words: &[u32],
    depths: &mut [u8],
    samples: &mut [u16],
    fronts: &mut [u8],
    limits: &mut [i16],
    marks: &mut [u8],
    samples2: &[u16],
    fronts2: &[u8],
    marks2: &[u8],
    combined: &mut [u16],
    reference: &[u16],
) -> Result<Decision, Refusal>
    requires table_value { (table_ok table.now ≡ true) × (share ≤ 64) }
    requires sized { Sized w h (around right share tolerance samples2.now fronts2.now marks2.now combined.old reference.now) (own tear table.now texture.now depths.old limits.old) }
    requires sized_2 { commit.Sized w h texture.now depths.old (planes.view samples.old fronts.old limits.old marks.old) }
    requires fits { (Fits w h block words.now) × (up_to 255 words.now ≡ true) }
    ensures { OwnSettled tear right table.now share tolerance total w h block 0 texture.now words.now
        samples2.now fronts2.now marks2.now reference.now
        depths.old depths.new
        (planes.view samples.old fronts.old limits.old marks.old)
        (planes.view samples.new fronts.new limits.new marks.new)
        combined.old combined.new (verdict total result) }
{
    let columns = w as usize;
    let rows = h as usize;
    let column = block.column as usize;
    let row = block.row as usize;
    let width = block.width as usize;
    let height = block.height as usize;
    let mut room = planes::room::<u8, 4096>(0);
    let sums = trial_saved(
        tear,
        right,
        table,
        share,
        tolerance,
        columns,
        rows,
        column,
        row,
        width,
        height,
        texture,
        depths,
        limits,
        words,
        &mut room[..],
        samples2,
        fronts2,
        marks2,
        combined,
        reference,
    );
    let most = judge::most_total(w, h);
    let decision = judge::judge(total, sums.old, sums.new, most)?;
    set_saved(
        tear,
        right,
        table,
        share,
        tolerance,
        columns,
        rows,
        column,
        row,
        width,
        height,
        texture,
        words,
        &mut room[..],
        depths,
        samples,
        fronts,
        limits,
        marks,
        samples2,
        fronts2,
        marks2,
        combined,
    );
    Ok(decision)
}

// Restores what was saved in the view that its record names.
pub fn restore_view<'a>(
    w: u32,
    h: u32,
    leftTable: &'a [u16; 256],
    rightTable: &'a [u16; 256],
    share: u8,
    tolerance: u8,
    tear: Tear,
    total: u64,
    left: &[u16],
    right: &[u16],
    reference: &[u16],
    leftDepths: &mut [u8],
    rightDepths: &mut [u8],
    leftSamples: &mut [u16],
    leftFronts: &mut [u8],
    leftLimits: &mut [i16],
    leftMarks: &mut [u8],
    rightSamples: &mut [u16],
    rightFronts: &mut [u8],
    rightLimits: &mut [i16],
    rightMarks: &mut [u8],
    combined: &mut [u16],
    view: u32,
    block: Block,
    words: &[u32],
) -> Result<Decision, Refusal>
    requires { SavedIn (settings_of w h leftTable.now rightTable.now share tolerance tear total)
        (planes.pictures left.now right.now reference.now)
        (planes.depths leftDepths.old rightDepths.old)
        (held_of leftSamples.old leftFronts.old leftLimits.old leftMarks.old rightSamples.old rightFronts.old rightLimits.old rightMarks.old combined.old)
        block words.now }
    ensures { Settled (settings_of w h leftTable.now rightTable.now share tolerance tear total)
        (planes.pictures left.now right.now reference.now)
        (planes.depths leftDepths.old rightDepths.old)
        (planes.depths leftDepths.new rightDepths.new)
        (held_of leftSamples.old leftFronts.old leftLimits.old leftMarks.old rightSamples.old rightFronts.old rightLimits.old rightMarks.old combined.old)
        (held_of leftSamples.new leftFronts.new leftLimits.new leftMarks.new rightSamples.new rightFronts.new rightLimits.new rightMarks.new combined.new)
        view block words.now 0 (verdict total result) }
{
    if view == 1 {
        return restore(
            tear,
            true,
            rightTable,
            share,
            tolerance,
            total,
            w,
            h,
            block,
            right,
            words,
            rightDepths,
            rightSamples,
            rightFronts,
            rightLimits,
            rightMarks,
            leftSamples,
            leftFronts,
            leftMarks,
            combined,
            reference,
        );
    }
    restore(
        tear,
        false,
        leftTable,
        share,
        tolerance,
        total,
        w,
        h,
        block,
        left,
        words,
        leftDepths,
        leftSamples,
        leftFronts,
        leftLimits,
        leftMarks,
        rightSamples,
        rightFronts,
        rightMarks,
        combined,
        reference,
    )
}
