// The row printer: what is printed for a text, and a run from a reader to a writer.
#![tactic(auto)]

ghost use Rattle.std.specs.Prelude.{◌≡◌, false, ◌+◌, ◌≤◌, ◌<◌, length, take, IfOk, OnOk, OnErr};
ghost use Rattle.std.specs.Io.KnownBytes.{Consumes, Appends, IsAtEnd};
ghost use Rattle.model.specs.Row.{line};
ghost use Rattle.model.specs.Views.{view_row};
ghost use Rattle.rowtext.specs.Format.{row_text};
ghost use Rattle.rowlines.specs.Printed.{printer_tear, printer_table, printed, Answers};
ghost use Rattle.rowlines.specs.Steps.{Put, PrinterSettings, Shows};
ghost use Rattle.rowprint.specs.Run.{AppendsPart, Prints, PrintsPart};

use model::{Settings, Tear};
use std::io::{Read, Write};
use std::{array, io};

// What the left view shows of a row: samples, packed marks and front depths.
#[derive(Drop)]
struct Drawn {
    samples: [u16; 64],
    marks: [u8; 64],
    fronts: [u8; 64],
}

// The table of document 01: entry d is d.
fn table() -> [u16; 256]
    ensures { result ≡ printer_table }
{
    array::from_fn(|d| d as u16)
}

// The settings of a row of w.
fn settings(w: usize) -> Settings
    requires { w ≤ 64 }
    ensures { PrinterSettings w result }
{
    let entries = table();
    Settings {
        w: w as u32,
        h: 1,
        left: entries,
        right: entries,
        share: 0,
        tolerance: 0,
        tear: Tear {
            gap: 8,
            distance: 1,
        },
        total: 0,
    }
}

// The left view of a row.
fn draw(w: usize, texture: &[u16], depths: &[u8]) -> Drawn
    requires { (1 ≤ w) × (w ≤ 64) × (length texture.now ≡ w) × (length depths.now ≡ w) }
    ensures { Shows (view_row false (line printer_tear printer_table texture.now depths.now)) w result.samples result.marks result.fronts }
{
    let mut samples: [u16; 64] = planes::room(0);
    let mut marks: [u8; 64] = planes::room(0);
    let mut fronts: [u8; 64] = planes::room(0);
    let bytes = (w + 7) / 8;
    // No refusal applies to these settings and lengths.
    let _ = render::render(
        settings(w),
        0,
        texture,
        depths,
        &mut samples[..w],
        &mut marks[..bytes],
        &mut fronts[..w],
    );
    Drawn {
        samples,
        marks,
        fronts,
    }
}

// Writes what is printed of a row.
#[tactic(auto, using(crate::proofs::Answers::printed_drawing))]
fn put_drawing(out: &mut [u8], w: usize, texture: &[u16], depths: &[u8]) -> usize
    requires le_w { (1 ≤ w) × (w ≤ 64) × (length texture.now ≡ w) × (length depths.now ≡ w) }
    requires in_bounds { 2048 ≤ length out.old }
    ensures { Put 2048 out.old 0 (printed (row_text w texture.now depths.now)) out.new result }
{
    let Drawn {
        samples,
        marks,
        fronts,
    } = draw(w, texture, depths);
    rowlines::put_row(out, w, &samples, &marks, &fronts)
}

// Writes what is printed for a text, and answers how many bytes that is.
pub fn answer(text: &[u8], out: &mut [u8; 4096]) -> usize
    ensures prefix_len { (result ≤ length out.new) × (result ≡ length (take result out.new)) }
    ensures answers { Answers text.now (take result out.new) }
{
    match rowtext::read_row(text) {
        Some(row) => put_drawing(out, row.w, &row.samples[..row.w], &row.depths[..row.w]),
        None => rowlines::put_text(out, b"bad input\n"),
    }
}

// Reads until the buffer is full or the input ends, and answers how many bytes were read. At an early end `read_exact` fails and says not what
// it read, and `read_to_end` wants a heap.
fn read_full<R: Read>(reader: &mut R, buffer: &mut [u8]) -> io::Result<usize>
    ensures within { IfOk result (λ n. n ≤ length buffer.new) }
    ensures taken { IfOk result (λ n. Consumes (R.remaining reader.old) (R.remaining reader.new) (take n buffer.new)) }
    ensures ended { IfOk result (λ n. n < length buffer.new → IsAtEnd (R.remaining reader.new)) }
{
    let mut done = 0;
    while done < buffer.len() {
        let n = reader.read(&mut buffer[done..])?;
        if n == 0 {
            break;
        }
        done += n;
    }
    Ok(done)
}

// Writes all of the bytes, or a beginning of them before the error, of which `write_all` says nothing.
fn write_full<W: Write>(writer: &mut W, bytes: &[u8]) -> io::Result<()>
    ensures ok { OnOk result (Appends (W.contents writer.old) (W.contents writer.new) bytes.now) }
    ensures err { OnErr result (AppendsPart (W.contents writer.old) (W.contents writer.new) bytes.now) }
{
    let mut rest = bytes;
    while !rest.is_empty() {
        let n = writer.write(rest)?;
        if n == 0 {
            return Err(io::Error::from(io::ErrorKind::WriteZero));
        }
        rest = &rest[n..];
    }
    Ok(())
}

// Reads a text to its end and writes what is printed for it. A text that is a row has at most 579 bytes, so one that fills the buffer is none,
// and no more of it is read. Before an error a beginning of the answer was written, or nothing.
#[tactic(auto, using(crate::proofs::Runs::printed_none))]
pub fn run<R: Read, W: Write>(reader: &mut R, writer: &mut W) -> io::Result<()>
    ensures ok { OnOk result (Prints (R.remaining reader.old) (W.contents writer.old) (W.contents writer.new)) }
    ensures err { OnErr result (PrintsPart (R.remaining reader.old) (W.contents writer.old) (W.contents writer.new)) }
{
    let mut text = [0u8; 4096];
    let n = read_full(reader, &mut text)?;
    let mut out = [0u8; 4096];
    let k = answer(&text[..n], &mut out);
    write_full(writer, &out[..k])
}

#[cfg(test)]
mod tests {
    use super::*;
    use std::test::Fail;

    // Takes or gives two bytes a call, and fails after `calls` of them.
    #[derive(Drop)]
    struct Narrow {
        calls: u8,
        taken: Vec<u8>,
    }

    impl Narrow {
        fn step(&mut self, most: usize) -> io::Result<usize>
            ensures { IfOk result (λ n. n ≤ most) }
        {
            if self.calls == 0 {
                return Err(io::Error::from(io::ErrorKind::BrokenPipe));
            }
            self.calls -= 1;
            Ok(most.min(2))
        }
    }

    impl Read for Narrow {
        fn read(&mut self, buf: &mut [u8]) -> io::Result<usize> {
            let n = self.step(buf.len())?;
            buf[..n].fill(b'1');
            Ok(n)
        }
    }

    impl Write for Narrow {
        fn write(&mut self, buf: &[u8]) -> io::Result<usize> {
            let n = self.step(buf.len())?;
            self.taken.extend_from_slice(&buf[..n])?;
            Ok(n)
        }

        fn flush(&mut self) -> io::Result<()> {
            Ok(())
        }
    }

    #[test]
    fn prints_a_row(rt: HostRuntime) -> Result<(), Fail> {
        let mut out = Vec::new(rt.alloc());
        run(&mut b"1\n50\n0\n".as_slice(), &mut out)?;
        assert_eq!(rt; out.as_slice(), b"row 1\n0 50 0 0\n".as_slice());
        Ok(())
    }

    #[test]
    fn writes_in_parts(rt: HostRuntime) -> Result<(), Fail> {
        let mut writer = Narrow {
            calls: 5,
            taken: Vec::new(rt.alloc()),
        };
        run(&mut b"".as_slice(), &mut writer)?;
        assert_eq!(rt; writer.taken.as_slice(), b"bad input\n".as_slice());
        Ok(())
    }

    #[test]
    fn stops_where_a_write_fails(rt: HostRuntime) -> Result<(), Fail> {
        let mut writer = Narrow {
            calls: 2,
            taken: Vec::new(rt.alloc()),
        };
        assert!(rt; run(&mut b"".as_slice(), &mut writer).is_err());
        assert_eq!(rt; writer.taken.as_slice(), b"bad ".as_slice());
        Ok(())
    }

    #[test]
    fn writes_nothing_where_a_read_fails(rt: HostRuntime) -> Result<(), Fail> {
        let mut reader = Narrow {
            calls: 3,
            taken: Vec::new(rt.alloc()),
        };
        let mut out = Vec::new(rt.alloc());
        assert!(rt; run(&mut reader, &mut out).is_err());
        assert_eq!(rt; out.len(), 0);
        Ok(())
    }
}
