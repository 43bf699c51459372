// RENDER: one row of one view.
#![tactic(auto)]

ghost use Rattle.std.specs.Prelude.{◌≡◌, true, ◌≤◌, length};
ghost use Rattle.model.specs.Row.{line};
ghost use Rattle.model.specs.Views.{view_row};
ghost use Rattle.model.specs.Marks.{mark_bytes};
ghost use Rattle.model.specs.Planes.{strip};
ghost use Rattle.model.specs.Fresh.{strip_of};
ghost use Rattle.model.specs.Promises.{RenderPost};
ghost use Rattle.row.specs.Drawing.{Ready};

use model::{Refusal, Settings, Tear};

// Draws the row into samples, packed marks and front depths; `flags` is room for its marks.
fn draw_packed(
    tear: Tear,
    right: bool,
    table: &[u16; 256],
    texture: &[u16],
    depths: &[u8],
    samples: &mut [u16],
    marks: &mut [u8],
    fronts: &mut [u8],
    flags: &mut [u8],
)
    requires ready { Ready (line tear table.now texture.now depths.now) }
    requires samples_len { (length samples.old ≡ length depths.now) × ((length marks.old ≡ mark_bytes (length depths.now)) × (length fronts.old ≡ length depths.now)) }
    requires depths_in_bounds { length depths.now ≤ length flags.old }
    ensures { strip samples.new marks.new fronts.new
        ≡ strip_of (length depths.now) (view_row right (line tear table.now texture.now depths.now)) }
{
    let w = depths.len();
    row::draw_view_row(
        tear,
        right,
        table,
        texture,
        depths,
        samples,
        fronts,
        &mut flags[..w],
    );
    marks::pack(&flags[..w], marks);
}

// The same, with room of its own.
fn draw_strip(
    tear: Tear,
    right: bool,
    table: &[u16; 256],
    texture: &[u16],
    depths: &[u8],
    samples: &mut [u16],
    marks: &mut [u8],
    fronts: &mut [u8],
)
    requires ready { Ready (line tear table.now texture.now depths.now) }
    requires samples_len { (length samples.old ≡ length depths.now) × ((length marks.old ≡ mark_bytes (length depths.now)) × (length fronts.old ≡ length depths.now)) }
    ensures { strip samples.new marks.new fronts.new
        ≡ strip_of (length depths.now) (view_row right (line tear table.now texture.now depths.now)) }
{
    let mut flags = [0u8; 4096];
    draw_packed(
        tear,
        right,
        table,
        texture,
        depths,
        samples,
        marks,
        fronts,
        &mut flags[..],
    );
}

// RENDER draws one row of one view with that view's table; h is taken as 1 and not tested.
pub fn render(
    settings: Settings,
    view: u32,
    texture: &[u16],
    depths: &[u8],
    samples: &mut [u16],
    marks: &mut [u8],
    fronts: &mut [u8],
) -> Result<(), Refusal>
    ensures { RenderPost settings view texture.now depths.now
        (strip samples.old marks.old fronts.old)
        (strip samples.new marks.new fronts.new) result }
{
    let left = &settings.left;
    let right = &settings.right;
    let tear = settings.tear;
    lists::strip_refusal(
        settings.w,
        left,
        right,
        tear,
        view,
        texture.len(),
        depths.len(),
        samples.len(),
        marks.len(),
        fronts.len(),
    )?;
    if view == 1 {
        draw_strip(tear, true, right, texture, depths, samples, marks, fronts);
    } else {
        draw_strip(tear, false, left, texture, depths, samples, marks, fronts);
    }
    Ok(())
}
