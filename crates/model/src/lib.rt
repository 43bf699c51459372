// The types that every entry of the library shares, and how a sample is read.
#![tactic(auto)]

ghost use Rattle.std.specs.Prelude.{◌≡◌, ◌<◌, ◌≤◌, length};
ghost use Rattle.model.specs.Row.{greatest, read, sample_in};
ghost use Rattle.model.specs.Refusals.{number_of};

// Where neighbouring columns tear apart, in quarter samples: the widest gap of a smooth pair, and how far past its column a torn pair, or the last column,
// still shows that column.
#[repr(C)]
#[derive(Clone, Copy)]
pub struct Tear {
    pub gap: u8,
    pub distance: u8,
}

// The settings of a session, passed and answered by value. `left` and `right` are the two tables of disparities in quarter samples.
#[repr(C)]
#[derive(Clone, Copy)]
pub struct Settings {
    pub w: u32,
    pub h: u32,
    pub left: [u16; 256],
    pub right: [u16; 256],
    pub share: u8,
    pub tolerance: u8,
    pub tear: Tear,
    pub total: u64,
}

// A block of a depth plane: its first column, first row, width and height.
#[repr(C)]
#[derive(Clone, Copy)]
pub struct Block {
    pub column: u32,
    pub row: u32,
    pub width: u32,
    pub height: u32,
}

// A position of a block, counted from the block's first column and row.
#[derive(Clone, Copy)]
pub struct Point {
    pub column: u32,
    pub row: u32,
}

// What divides a block into two regions: the line from `start` to `end`, or a mask, whose bits are lent beside.
#[derive(Clone, Copy)]
pub enum Split {
    Line { start: Point, end: Point },
    Mask,
}

// What a block is filled with: its depths one by one, which are lent beside; one depth; or two regions with a depth each.
#[derive(Clone, Copy)]
pub enum Candidate {
    Full,
    Flat(u8),
    Regions {
        value0: u8,
        value1: u8,
        split: Split,
    },
}

// The kind of a pair of neighbouring columns.
#[derive(Clone, Copy)]
pub enum Kind {
    Hidden,
    Smooth,
    Torn,
}

// What a view shows at a position: its sample, its hole mark (0 or 1) and its front depth.
#[derive(Clone, Copy)]
pub struct Pixel {
    pub sample: u16,
    pub mark: u8,
    pub front: u8,
}

// Why a call is refused.
#[derive(Clone, Copy, Debug, PartialEq, Eq)]
pub enum Refusal {
    Size,
    Plane,
    Table,
    Share,
    Bounds,
    View,
    Candidate,
    Total,
    JournalFull,
    NothingToTakeBack,
    Journal,
    Line,
    Mask,
    Gap,
    Sample,
}

// What SET and TAKE BACK answer: the change of the total, and the settings with the new total.
#[derive(Drop)]
pub struct Edited {
    pub change: i64,
    pub settings: Settings,
}

// What CHECK answers.
#[derive(Drop)]
pub enum Report {
    Sound,
    Difference { row: u32, column: u32 },
    Total,
}

// The number of a refusal in document 01.
impl From<Refusal> for u32 {
    ghost from_gives = { λ refusal number. number ≡ number_of refusal };

    fn from(refusal: Refusal) -> u32 {
        match refusal {
            Refusal::Size => 1,
            Refusal::Plane => 2,
            Refusal::Table => 3,
            Refusal::Share => 4,
            Refusal::Bounds => 5,
            Refusal::View => 6,
            Refusal::Candidate => 7,
            Refusal::Total => 8,
            Refusal::JournalFull => 11,
            Refusal::NothingToTakeBack => 12,
            Refusal::Journal => 13,
            Refusal::Line => 14,
            Refusal::Mask => 15,
            Refusal::Gap => 20,
            Refusal::Sample => 21,
        }
    }
}

// An entry as it is read: above the greatest sample, as that.
pub fn read(entry: u16) -> u16
    ensures { (result ≡ read entry) × (result ≤ greatest) }
{
    if entry < 1023 { entry } else { 1023 }
}

// The sample at entry i of a row, as it is read.
pub fn sample_in(row: &[u16], i: usize) -> u16
    requires { i < length row.now }
    ensures { (result ≡ sample_in row.now i) × (result ≤ greatest) }
{
    read(row[i])
}
