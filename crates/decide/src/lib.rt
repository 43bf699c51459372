// What GET decides: the first refusal that applies, or the change of the total.
#![tactic(auto)]

ghost use Rattle.std.specs.Prelude.{◌≡◌, length};
ghost use Rattle.model.specs.Planes.{pictures, depths};
ghost use Rattle.model.specs.Candidates.{filled};
ghost use Rattle.model.specs.Refusals.{early_number};
ghost use Rattle.judge.specs.Judged.{verdict};
ghost use Rattle.decide.specs.Decided.{settings_of, held_of, Tried, Decided};

use judge::Decision;
use model::{Block, Candidate, Refusal, Tear};
use strips::{Counterpart, Source, Sums};
use validate::{Lengths, ViewLengths};

// The squared errors in the block's spans, summed as the combined picture is held and as the candidate would make it.
fn try_candidate(
    w: u32,
    h: u32,
    leftTable: &[u16; 256],
    rightTable: &[u16; 256],
    share: u8,
    tolerance: u8,
    tear: Tear,
    left: &[u16],
    right: &[u16],
    reference: &[u16],
    leftDepths: &[u8],
    rightDepths: &[u8],
    leftSamples: &[u16],
    leftFronts: &[u8],
    leftLimits: &[i16],
    leftMarks: &[u8],
    rightSamples: &[u16],
    rightFronts: &[u8],
    rightLimits: &[i16],
    rightMarks: &[u8],
    combined: &[u16],
    view: u32,
    block: Block,
    candidate: Candidate,
    bytes: &[u8],
) -> Sums
    requires { early_number (settings_of w h leftTable.now rightTable.now share tolerance tear 0)
        (pictures left.now right.now reference.now)
        (depths leftDepths.now rightDepths.now)
        (held_of leftSamples.now leftFronts.now leftLimits.now leftMarks.now rightSamples.now rightFronts.now rightLimits.now rightMarks.now combined.now)
        view block candidate (length bytes.now) ≡ 0 }
    ensures { Tried (settings_of w h leftTable.now rightTable.now share tolerance tear 0)
        (pictures left.now right.now reference.now)
        (depths leftDepths.now rightDepths.now)
        (held_of leftSamples.now leftFronts.now leftLimits.now leftMarks.now rightSamples.now rightFronts.now rightLimits.now rightMarks.now combined.now)
        view block (filled block candidate bytes.now) result.old result.new }
{
    let columns = w as usize;
    let rows = h as usize;
    let column = block.column as usize;
    let row = block.row as usize;
    let width = block.width as usize;
    let height = block.height as usize;
    // Told apart before the view, and in no function that SET calls too: so GET calls the trial of a full block straight.
    let lent = fill::lent(candidate);
    if view == 1 {
        let v = Source {
            tear,
            table: rightTable,
            texture: right,
            depths: rightDepths,
            limits: rightLimits,
        };
        let o = Counterpart {
            right: true,
            share,
            tolerance,
            samples: leftSamples,
            fronts: leftFronts,
            marks: leftMarks,
            combined,
            reference,
        };
        if lent {
            return trial::trial_block(v, o, columns, rows, column, row, width, height, bytes);
        }
        return trial::trial_made(
            v, o, columns, rows, column, row, width, height, candidate, bytes,
        );
    }
    let v = Source {
        tear,
        table: leftTable,
        texture: left,
        depths: leftDepths,
        limits: leftLimits,
    };
    let o = Counterpart {
        right: false,
        share,
        tolerance,
        samples: rightSamples,
        fronts: rightFronts,
        marks: rightMarks,
        combined,
        reference,
    };
    if lent {
        return trial::trial_block(v, o, columns, rows, column, row, width, height, bytes);
    }
    trial::trial_made(
        v, o, columns, rows, column, row, width, height, candidate, bytes,
    )
}

// The decision on a candidate for a block of a view, by settings and planes that may be anything. Nothing is written.
pub fn decide<'a>(
    w: u32,
    h: u32,
    leftTable: &'a [u16; 256],
    rightTable: &'a [u16; 256],
    share: u8,
    tolerance: u8,
    tear: Tear,
    total: u64,
    left: &[u16],
    right: &[u16],
    reference: &[u16],
    leftDepths: &[u8],
    rightDepths: &[u8],
    leftSamples: &[u16],
    leftFronts: &[u8],
    leftLimits: &[i16],
    leftMarks: &[u8],
    rightSamples: &[u16],
    rightFronts: &[u8],
    rightLimits: &[i16],
    rightMarks: &[u8],
    combined: &[u16],
    view: u32,
    block: Block,
    candidate: Candidate,
    bytes: &[u8],
) -> Result<Decision, Refusal>
    ensures { Decided (settings_of w h leftTable.now rightTable.now share tolerance tear total)
        (pictures left.now right.now reference.now)
        (depths leftDepths.now rightDepths.now)
        (held_of leftSamples.now leftFronts.now leftLimits.now leftMarks.now rightSamples.now rightFronts.now rightLimits.now rightMarks.now combined.now)
        view block candidate bytes.now (verdict total result) }
{
    let lengths = Lengths {
        left: ViewLengths {
            texture: left.len(),
            depths: leftDepths.len(),
            samples: leftSamples.len(),
            fronts: leftFronts.len(),
            limits: leftLimits.len(),
            marks: leftMarks.len(),
        },
        right: ViewLengths {
            texture: right.len(),
            depths: rightDepths.len(),
            samples: rightSamples.len(),
            fronts: rightFronts.len(),
            limits: rightLimits.len(),
            marks: rightMarks.len(),
        },
        reference: reference.len(),
        combined: combined.len(),
    };
    validate::common(w, h, leftTable, rightTable, share, tear, lengths)?;
    validate::own(w, h, view, block)?;
    candidates::candidate_refusal(block, candidate, bytes.len())?;
    let sums = try_candidate(
        w,
        h,
        leftTable,
        rightTable,
        share,
        tolerance,
        tear,
        left,
        right,
        reference,
        leftDepths,
        rightDepths,
        leftSamples,
        leftFronts,
        leftLimits,
        leftMarks,
        rightSamples,
        rightFronts,
        rightLimits,
        rightMarks,
        combined,
        view,
        block,
        candidate,
        bytes,
    );
    let most = judge::most_total(w, h);
    judge::judge(total, sums.old, sums.new, most)
}
