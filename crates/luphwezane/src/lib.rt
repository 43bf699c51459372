// The entries as C and Rust call them: a slice is a pointer and a length, settings and blocks are structs by value, and the answer is the number of
// the refusal, 0 where the call is accepted. What an entry answers besides goes through the last parameters, which a refused call leaves alone.
#![tactic(auto)]

ghost use Rattle.model.specs.Planes as planes;
ghost use Rattle.model.specs.Promises.{RenderPost, OpenPost, MovePost, GetPost, SetPost, TakeBackPost, CheckPost, HolesPost};
ghost use Rattle.decide.specs.Decided.{settings_of};
ghost use Rattle.shape.specs.Shapes.{candidate_of, bytes_of};
ghost use Rattle.luphwezane.specs.Exports.{Rendered, OpenedOut, TriedOut, EditedOut, ReportOut, CountOut};

use model::{Block, Settings};
use shape::Shape;

// RENDER.
pub fn luph_raw_render(
    settings: Settings,
    view: u32,
    texture: &[u16],
    depths: &[u8],
    samples: &mut [u16],
    marks: &mut [u8],
    fronts: &mut [u8],
) -> u32
    ensures { Rendered (RenderPost settings view texture.now depths.now
        (planes.strip samples.old marks.old fronts.old)
        (planes.strip samples.new marks.new fronts.new)) result }
{
    let answer = render::render(settings, view, texture, depths, samples, marks, fronts);
    answers::answered(answer)
}

// OPEN; the new total goes to `total`.
pub fn luph_raw_open(
    settings: Settings,
    left: &[u16],
    right: &[u16],
    reference: &[u16],
    leftDepths: &[u8],
    rightDepths: &[u8],
    leftSamples: &mut [u16],
    leftFronts: &mut [u8],
    leftLimits: &mut [i16],
    leftMarks: &mut [u8],
    rightSamples: &mut [u16],
    rightFronts: &mut [u8],
    rightLimits: &mut [i16],
    rightMarks: &mut [u8],
    combined: &mut [u16],
    journal: &mut [u32],
    total: &mut u64,
) -> u32
    ensures { OpenedOut (OpenPost settings (planes.pictures left.now right.now reference.now) (planes.depths leftDepths.now rightDepths.now)
        (planes.held (planes.view leftSamples.old leftFronts.old leftLimits.old leftMarks.old) (planes.view rightSamples.old rightFronts.old rightLimits.old rightMarks.old) combined.old)
        (planes.held (planes.view leftSamples.new leftFronts.new leftLimits.new leftMarks.new) (planes.view rightSamples.new rightFronts.new rightLimits.new rightMarks.new) combined.new) journal.old journal.new) result total.old total.new }
{
    let opened = open::open(
        settings,
        left,
        right,
        reference,
        leftDepths,
        rightDepths,
        leftSamples,
        leftFronts,
        leftLimits,
        leftMarks,
        rightSamples,
        rightFronts,
        rightLimits,
        rightMarks,
        combined,
        journal,
    );
    answers::opened(opened, total)
}

// MOVE; the new total goes to `total`, and the caller takes the rest of the new settings from `to`.
pub fn luph_raw_move(
    settings: Settings,
    to: Settings,
    left: &[u16],
    right: &[u16],
    reference: &[u16],
    leftDepths: &[u8],
    rightDepths: &[u8],
    leftSamples: &mut [u16],
    leftFronts: &mut [u8],
    leftLimits: &mut [i16],
    leftMarks: &mut [u8],
    rightSamples: &mut [u16],
    rightFronts: &mut [u8],
    rightLimits: &mut [i16],
    rightMarks: &mut [u8],
    combined: &mut [u16],
    journal: &mut [u32],
    total: &mut u64,
) -> u32
    ensures { OpenedOut (MovePost settings to (planes.pictures left.now right.now reference.now) (planes.depths leftDepths.now rightDepths.now)
        (planes.held (planes.view leftSamples.old leftFronts.old leftLimits.old leftMarks.old) (planes.view rightSamples.old rightFronts.old rightLimits.old rightMarks.old) combined.old)
        (planes.held (planes.view leftSamples.new leftFronts.new leftLimits.new leftMarks.new) (planes.view rightSamples.new rightFronts.new rightLimits.new rightMarks.new) combined.new) journal.old journal.new) result total.old total.new }
{
    let moved = move_seat::move_seat(
        settings,
        to,
        left,
        right,
        reference,
        leftDepths,
        rightDepths,
        leftSamples,
        leftFronts,
        leftLimits,
        leftMarks,
        rightSamples,
        rightFronts,
        rightLimits,
        rightMarks,
        combined,
        journal,
    );
    answers::opened(moved, total)
}

// GET; the change of the total goes to `change`. The settings come field by field, the tables lent: GET is the hot call, and a copy of the tables would cost it.
pub fn luph_raw_get<'a>(
    w: u32,
    h: u32,
    leftTable: &'a [u16; 256],
    rightTable: &'a [u16; 256],
    share: u8,
    tolerance: u8,
    widestGap: u8,
    tornDistance: u8,
    total: u64,
    left: &[u16],
    right: &[u16],
    reference: &[u16],
    leftDepths: &[u8],
    rightDepths: &[u8],
    leftSamples: &[u16],
    leftFronts: &[u8],
    leftLimits: &[i16],
    leftMarks: &[u8],
    rightSamples: &[u16],
    rightFronts: &[u8],
    rightLimits: &[i16],
    rightMarks: &[u8],
    combined: &[u16],
    view: u32,
    block: Block,
    shape: Shape,
    bytes: &[u8],
    change: &mut i64,
) -> u32
    ensures { TriedOut (GetPost (settings_of w h leftTable.now rightTable.now share tolerance (record { gap = widestGap; distance = tornDistance }) total) (planes.pictures left.now right.now reference.now) (planes.depths leftDepths.now rightDepths.now)
        (planes.held (planes.view leftSamples.now leftFronts.now leftLimits.now leftMarks.now) (planes.view rightSamples.now rightFronts.now rightLimits.now rightMarks.now) combined.now) view block (candidate_of shape) (bytes_of shape bytes.now)) result change.old change.new }
{
    let n = shape::lent(shape.kind, bytes.len());
    let tear = shape::tear_of(widestGap, tornDistance);
    let tried = decide::decide(
        w,
        h,
        leftTable,
        rightTable,
        share,
        tolerance,
        tear,
        total,
        left,
        right,
        reference,
        leftDepths,
        rightDepths,
        leftSamples,
        leftFronts,
        leftLimits,
        leftMarks,
        rightSamples,
        rightFronts,
        rightLimits,
        rightMarks,
        combined,
        view,
        block,
        model::Candidate::from(shape),
        &bytes[..n],
    );
    answers::tried(tried, change)
}

// SET; the change of the total goes to `change` and the new total to `total`.
pub fn luph_raw_set(
    settings: Settings,
    left: &[u16],
    right: &[u16],
    reference: &[u16],
    leftDepths: &mut [u8],
    rightDepths: &mut [u8],
    leftSamples: &mut [u16],
    leftFronts: &mut [u8],
    leftLimits: &mut [i16],
    leftMarks: &mut [u8],
    rightSamples: &mut [u16],
    rightFronts: &mut [u8],
    rightLimits: &mut [i16],
    rightMarks: &mut [u8],
    combined: &mut [u16],
    journal: &mut [u32],
    view: u32,
    block: Block,
    shape: Shape,
    bytes: &[u8],
    change: &mut i64,
    total: &mut u64,
) -> u32
    ensures { EditedOut (SetPost settings (planes.pictures left.now right.now reference.now) (planes.depths leftDepths.old rightDepths.old) (planes.depths leftDepths.new rightDepths.new)
        (planes.held (planes.view leftSamples.old leftFronts.old leftLimits.old leftMarks.old) (planes.view rightSamples.old rightFronts.old rightLimits.old rightMarks.old) combined.old)
        (planes.held (planes.view leftSamples.new leftFronts.new leftLimits.new leftMarks.new) (planes.view rightSamples.new rightFronts.new rightLimits.new rightMarks.new) combined.new) journal.old journal.new view block (candidate_of shape) (bytes_of shape bytes.now)) result change.old change.new total.old total.new }
{
    let n = shape::lent(shape.kind, bytes.len());
    let edited = set::set(
        settings,
        left,
        right,
        reference,
        leftDepths,
        rightDepths,
        leftSamples,
        leftFronts,
        leftLimits,
        leftMarks,
        rightSamples,
        rightFronts,
        rightLimits,
        rightMarks,
        combined,
        journal,
        view,
        block,
        model::Candidate::from(shape),
        &bytes[..n],
    );
    answers::edited(edited, change, total)
}

// TAKE BACK; the change of the total goes to `change` and the new total to `total`.
pub fn luph_raw_take_back(
    settings: Settings,
    left: &[u16],
    right: &[u16],
    reference: &[u16],
    leftDepths: &mut [u8],
    rightDepths: &mut [u8],
    leftSamples: &mut [u16],
    leftFronts: &mut [u8],
    leftLimits: &mut [i16],
    leftMarks: &mut [u8],
    rightSamples: &mut [u16],
    rightFronts: &mut [u8],
    rightLimits: &mut [i16],
    rightMarks: &mut [u8],
    combined: &mut [u16],
    journal: &mut [u32],
    change: &mut i64,
    total: &mut u64,
) -> u32
    ensures { EditedOut (TakeBackPost settings (planes.pictures left.now right.now reference.now) (planes.depths leftDepths.old rightDepths.old) (planes.depths leftDepths.new rightDepths.new)
        (planes.held (planes.view leftSamples.old leftFronts.old leftLimits.old leftMarks.old) (planes.view rightSamples.old rightFronts.old rightLimits.old rightMarks.old) combined.old)
        (planes.held (planes.view leftSamples.new leftFronts.new leftLimits.new leftMarks.new) (planes.view rightSamples.new rightFronts.new rightLimits.new rightMarks.new) combined.new) journal.old journal.new) result change.old change.new total.old total.new }
{
    let edited = take_back::take_back(
        settings,
        left,
        right,
        reference,
        leftDepths,
        rightDepths,
        leftSamples,
        leftFronts,
        leftLimits,
        leftMarks,
        rightSamples,
        rightFronts,
        rightLimits,
        rightMarks,
        combined,
        journal,
    );
    answers::edited(edited, change, total)
}

// CHECK; what it reports goes to `kind` (0 sound, 1 a difference, 2 the total) and, for a difference, `row` and `column`.
pub fn luph_raw_check(
    settings: Settings,
    left: &[u16],
    right: &[u16],
    reference: &[u16],
    leftDepths: &[u8],
    rightDepths: &[u8],
    leftSamples: &[u16],
    leftFronts: &[u8],
    leftLimits: &[i16],
    leftMarks: &[u8],
    rightSamples: &[u16],
    rightFronts: &[u8],
    rightLimits: &[i16],
    rightMarks: &[u8],
    combined: &[u16],
    kind: &mut u32,
    row: &mut u32,
    column: &mut u32,
) -> u32
    ensures { ReportOut (CheckPost settings (planes.pictures left.now right.now reference.now) (planes.depths leftDepths.now rightDepths.now)
        (planes.held (planes.view leftSamples.now leftFronts.now leftLimits.now leftMarks.now) (planes.view rightSamples.now rightFronts.now rightLimits.now rightMarks.now) combined.now)) result kind.old row.old column.old kind.new row.new column.new }
{
    let report = checks::check(
        settings,
        left,
        right,
        reference,
        leftDepths,
        rightDepths,
        leftSamples,
        leftFronts,
        leftLimits,
        leftMarks,
        rightSamples,
        rightFronts,
        rightLimits,
        rightMarks,
        combined,
    );
    answers::reported(report, kind, row, column)
}

// HOLES; the count goes to `count`.
pub fn luph_raw_holes(
    settings: Settings,
    view: u32,
    left: &[u8],
    right: &[u8],
    count: &mut u64,
) -> u32
    ensures { CountOut (HolesPost settings view left.now right.now) result count.old count.new }
{
    let counted = holes::holes(settings, view, left, right);
    answers::counted(counted, count)
}
