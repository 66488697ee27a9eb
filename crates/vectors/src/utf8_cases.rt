// The cases of crate utf8.
use crate::line::Line;
use crate::say::Answer;
use std::alloc::Global;
use std::io;

// The most bytes of a case.
const ROOM: usize = 4096;

// `utf8 BYTES`: whether these bytes pass.
pub(crate) fn passes(alloc: Global, rt: &impl Print, line: Line<'_>) -> io::Result<()> {
    let bytes = line.bytes(alloc, 1, ROOM)?;
    rt.print(Answer::Truth(utf8::is_utf8(&bytes)))
}

// `gap BYTES BYTES`: which of the 256 bytes pass when they stand between these, as ranges.
pub(crate) fn gap(alloc: Global, rt: &impl Print, line: Line<'_>) -> io::Result<()> {
    let mut row = line.bytes(alloc, 1, ROOM)?;
    let gap = row.len();
    if gap < ROOM {
        row.push(0)?;
        let behind = line.bytes(alloc, 2, ROOM - gap - 1)?;
        row.extend_from_slice(&behind)?;
    }
    ranges(rt, &mut row, gap)
}

// The bytes that pass in the row's gap: ` 80-8f a0-a0`.
fn ranges(rt: &impl Print, row: &mut [u8], gap: usize) -> io::Result<()> {
    let mut any = false;
    let mut open = false;
    for b in 0..=u8::MAX {
        let pass = passes_with(row, gap, b);
        if pass && !open {
            print!(rt; " {b:02x}")?;
            any = true;
        }
        if open && !pass {
            print!(rt; "-{:02x}", b.wrapping_sub(1))?;
        }
        open = pass;
    }
    if open {
        rt.write_all(b"-ff")?;
    }
    if !any {
        rt.write_all(b" none")?;
    }
    Ok(())
}

fn passes_with(row: &mut [u8], gap: usize, b: u8) -> bool {
    match row.get_mut(gap) {
        Some(byte) => *byte = b,
        None => return false,
    }
    utf8::is_utf8(row)
}
