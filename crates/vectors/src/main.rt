// The cases that are run: both sides of each boundary of document 01 and of the cards, through every entry. A line says a case's numbers, its calls and
// their replies; the first is document 01's session. rust/tests/vectors.rs has many more cases of the library as it is linked.
#![tactic(auto)]

use model::{Block, Candidate, Edited, Refusal, Report, Settings, Tear};
use std::io;

// Prints a call and the number of its refusal, 0 where it is accepted.
fn say_number(rt: &impl Print, call: &str, number: u32) -> io::Result<()> {
    print!(rt; "{call}{number}")
}

// Prints what a call that answers settings answered, and gives the settings that its caller has then.
fn say_settings(
    rt: &impl Print,
    call: &str,
    answer: Result<Settings, Refusal>,
    given: Settings,
) -> io::Result<Settings> {
    let (number, next) = match answer {
        Ok(next) => (0, next),
        Err(refusal) => (u32::from(refusal), given),
    };
    say_number(rt, call, number)?;
    print!(rt; " total {}", next.total)?;
    Ok(next)
}

// The same of SET and TAKE BACK.
fn say_edited(
    rt: &impl Print,
    call: &str,
    answer: Result<Edited, Refusal>,
    given: Settings,
) -> io::Result<Settings> {
    say_settings(rt, call, answer.map(|edited| edited.settings), given)
}

// Prints what CHECK reports.
fn say_report(rt: &impl Print, answer: Result<Report, Refusal>) -> io::Result<()> {
    match answer {
        Err(refusal) => say_number(rt, ", check ", u32::from(refusal)),
        Ok(Report::Sound) => print!(rt; ", check sound"),
        Ok(_) => print!(rt; ", check not sound"),
    }
}

// Prints what HOLES counted.
fn say_count(rt: &impl Print, answer: Result<u64, Refusal>) -> io::Result<()> {
    match answer {
        Err(refusal) => say_number(rt, ", holes refused ", u32::from(refusal)),
        Ok(count) => print!(rt; ", holes {count}"),
    }
}

// Column 2.
fn column() -> Block {
    Block {
        column: 2,
        row: 0,
        width: 1,
        height: 1,
    }
}

// What a view holds of one row of four columns.
#[derive(Drop)]
struct View {
    depths: [u8; 4],
    samples: [u16; 4],
    fronts: [u8; 4],
    limits: [i16; 4],
    marks: [u8; 1],
}

impl View {
    // Depths of 0, and room for the rest.
    fn new() -> View {
        View {
            depths: [0; 4],
            samples: [0; 4],
            fronts: [0; 4],
            limits: [0; 4],
            marks: [0; 1],
        }
    }
}

// The planes of a session, and its journal.
#[derive(Drop)]
struct Planes {
    left: View,
    right: View,
    combined: [u16; 4],
    journal: [u32; 8],
}

// Each call is a method of its own: in one function their proof is several times as long.
impl Planes {
    fn new() -> Planes {
        Planes {
            left: View::new(),
            right: View::new(),
            combined: [0; 4],
            journal: [0; 8],
        }
    }

    // OPEN.
    fn opened(&mut self, rt: &impl Print, given: Settings, row: &[u16]) -> io::Result<Settings> {
        let answer = open::open(
            given,
            row,
            row,
            row,
            &self.left.depths,
            &self.right.depths,
            &mut self.left.samples,
            &mut self.left.fronts,
            &mut self.left.limits,
            &mut self.left.marks,
            &mut self.right.samples,
            &mut self.right.fronts,
            &mut self.right.limits,
            &mut self.right.marks,
            &mut self.combined,
            &mut self.journal,
        );
        say_settings(rt, ", open ", answer, given)
    }

    // GET of depth 4, with the total that it leads to.
    fn tried(&self, rt: &impl Print, given: Settings, row: &[u16], none: &[u8]) -> io::Result<()> {
        let tear = given.tear;
        let answer = decide::decide(
            given.w,
            given.h,
            &given.left,
            &given.right,
            given.share,
            given.tolerance,
            tear,
            given.total,
            row,
            row,
            row,
            &self.left.depths,
            &self.right.depths,
            &self.left.samples,
            &self.left.fronts,
            &self.left.limits,
            &self.left.marks,
            &self.right.samples,
            &self.right.fronts,
            &self.right.limits,
            &self.right.marks,
            &self.combined,
            0,
            column(),
            Candidate::Flat(4),
            none,
        );
        let (number, total) = match answer {
            Ok(decision) => (0, decision.total),
            Err(refusal) => (u32::from(refusal), given.total),
        };
        say_number(rt, ", get ", number)?;
        print!(rt; " total {total}")
    }

    // SET of depth 5.
    fn written(
        &mut self,
        rt: &impl Print,
        given: Settings,
        row: &[u16],
        none: &[u8],
    ) -> io::Result<Settings> {
        let answer = set::set(
            given,
            row,
            row,
            row,
            &mut self.left.depths,
            &mut self.right.depths,
            &mut self.left.samples,
            &mut self.left.fronts,
            &mut self.left.limits,
            &mut self.left.marks,
            &mut self.right.samples,
            &mut self.right.fronts,
            &mut self.right.limits,
            &mut self.right.marks,
            &mut self.combined,
            &mut self.journal,
            0,
            column(),
            Candidate::Flat(5),
            none,
        );
        say_edited(rt, ", set ", answer, given)
    }

    // CHECK, and HOLES of the left view.
    fn checked(&self, rt: &impl Print, given: Settings, row: &[u16]) -> io::Result<()> {
        let report = checks::check(
            given,
            row,
            row,
            row,
            &self.left.depths,
            &self.right.depths,
            &self.left.samples,
            &self.left.fronts,
            &self.left.limits,
            &self.left.marks,
            &self.right.samples,
            &self.right.fronts,
            &self.right.limits,
            &self.right.marks,
            &self.combined,
        );
        say_report(rt, report)?;
        say_count(
            rt,
            holes::holes(given, 0, &self.left.marks, &self.right.marks),
        )
    }

    // TAKE BACK.
    fn taken(&mut self, rt: &impl Print, given: Settings, row: &[u16]) -> io::Result<Settings> {
        let answer = take_back::take_back(
            given,
            row,
            row,
            row,
            &mut self.left.depths,
            &mut self.right.depths,
            &mut self.left.samples,
            &mut self.left.fronts,
            &mut self.left.limits,
            &mut self.left.marks,
            &mut self.right.samples,
            &mut self.right.fronts,
            &mut self.right.limits,
            &mut self.right.marks,
            &mut self.combined,
            &mut self.journal,
        );
        say_edited(rt, ", take back ", answer, given)
    }

    // MOVE to the same seat with another reference.
    fn moved(
        &mut self,
        rt: &impl Print,
        given: Settings,
        row: &[u16],
        other: &[u16],
    ) -> io::Result<Settings> {
        let answer = move_seat::move_seat(
            given,
            given,
            row,
            row,
            other,
            &self.left.depths,
            &self.right.depths,
            &mut self.left.samples,
            &mut self.left.fronts,
            &mut self.left.limits,
            &mut self.left.marks,
            &mut self.right.samples,
            &mut self.right.fronts,
            &mut self.right.limits,
            &mut self.right.marks,
            &mut self.combined,
            &mut self.journal,
        );
        say_settings(rt, ", move ", answer, given)
    }
}

// A session of one row of four columns with depths of 0.
fn session(
    rt: &impl Print,
    given: Settings,
    row: &[u16],
    other: &[u16],
    none: &[u8],
) -> io::Result<()> {
    let mut planes = Planes::new();
    let first = planes.opened(rt, given, row)?;
    planes.tried(rt, first, row, none)?;
    let second = planes.written(rt, first, row, none)?;
    planes.checked(rt, second, row)?;
    let third = planes.taken(rt, second, row)?;
    planes.moved(rt, third, row, other)?;
    Ok(())
}

// RENDER of row g of document 01.
fn drawn(rt: &impl Print, given: Settings, row: &[u16]) -> io::Result<()> {
    let depths = [0u8, 0, 5, 0];
    let mut samples = [0u16; 4];
    let mut marks = [0u8; 1];
    let mut fronts = [0u8; 4];
    let answer = render::render(
        given,
        0,
        row,
        &depths,
        &mut samples,
        &mut marks,
        &mut fronts,
    );
    let number = match answer {
        Ok(()) => 0,
        Err(refusal) => u32::from(refusal),
    };
    say_number(rt, ": render ", number)
}

// Settings with the tables that document 01's session reads, whose last entry is given, and a total that OPEN ignores.
fn settings(w: u32, h: u32, entry: u16, share: u8, gap: u8, distance: u8) -> Settings {
    let mut table = [0u16; 256];
    table[4] = 4;
    table[5] = 5;
    table[255] = entry;
    Settings {
        w,
        h,
        left: table,
        right: table,
        share,
        tolerance: 255,
        tear: Tear { gap, distance },
        total: 7,
    }
}

// Prints the numbers of a case.
fn say_case(
    rt: &impl Print,
    w: u32,
    h: u32,
    entry: u16,
    share: u8,
    gap: u8,
    distance: u8,
    sample: u16,
) -> io::Result<()> {
    print!(rt; " {w} {h} {entry} {share} {gap} {distance} {sample}")
}

// RENDER and a session over the pictures of document 01, with MOVE to a reference of zeros and a sample.
fn played(rt: &impl Print, given: Settings, sample: u16) -> io::Result<()> {
    let row = [10u16, 20, 30, 40];
    let other = [0, 0, 0, sample];
    drawn(rt, given, &row)?;
    session(rt, given, &row, &other, b"")?;
    println!(rt)
}

// A case over planes of four columns and one row.
fn case(
    rt: &impl Print,
    w: u32,
    h: u32,
    entry: u16,
    share: u8,
    gap: u8,
    distance: u8,
    sample: u16,
) -> io::Result<()> {
    say_case(rt, w, h, entry, share, gap, distance, sample)?;
    played(rt, settings(w, h, entry, share, gap, distance), sample)
}

// HOLES of 4,096 bytes of marks, all of them 1.
fn large(rt: &impl Print, w: u32, h: u32) -> io::Result<()> {
    let marks = [255u8; 4096];
    print!(rt; " {w} {h}")?;
    say_count(
        rt,
        holes::holes(settings(w, h, 255, 0, 8, 1), 0, &marks, &marks),
    )?;
    println!(rt)
}

fn main(rt: HostRuntime) -> io::Result<()> {
    println!(rt; " w h entry share gap distance sample")?;
    case(&rt, 4, 1, 255, 0, 8, 1, 40)?;
    case(&rt, 0, 1, 255, 0, 8, 1, 40)?;
    large(&rt, 4096, 8)?;
    case(&rt, 4097, 1, 255, 0, 8, 1, 40)?;
    case(&rt, 4, 0, 255, 0, 8, 1, 40)?;
    large(&rt, 8, 4096)?;
    case(&rt, 4, 4097, 255, 0, 8, 1, 40)?;
    case(&rt, 4, 1, 1023, 0, 8, 1, 40)?;
    case(&rt, 4, 1, 1024, 0, 8, 1, 40)?;
    case(&rt, 4, 1, 255, 64, 8, 1, 40)?;
    case(&rt, 4, 1, 255, 65, 8, 1, 40)?;
    case(&rt, 4, 1, 255, 0, 3, 1, 40)?;
    case(&rt, 4, 1, 255, 0, 4, 1, 40)?;
    case(&rt, 4, 1, 255, 0, 64, 1, 40)?;
    case(&rt, 4, 1, 255, 0, 65, 1, 40)?;
    case(&rt, 4, 1, 255, 0, 8, 3, 40)?;
    case(&rt, 4, 1, 255, 0, 8, 4, 40)?;
    case(&rt, 4, 1, 255, 0, 8, 1, 1023)?;
    case(&rt, 4, 1, 255, 0, 8, 1, 1024)
}
