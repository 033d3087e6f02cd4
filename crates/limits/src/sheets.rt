// Sheets as text. A run of lines is written as numbers: how many lines, how many times each, which byte of the line rises by
// one from line to line, and the bytes of the first line. Runs are parted by bars.
use std::io;

// The numbers that stand in the text, one behind the other.
pub(crate) fn numbers_of(rt: &HostRuntime, text: &str) -> io::Result<Vec<u64>> {
    let numbers = text
        .split_whitespace()
        .filter_map(|word| word.parse().ok())
        .collect(rt.alloc())?;
    Ok(numbers)
}

fn write_line(sheet: &mut Vec<u8>, line: &[u64], at: usize, rise: u64) -> io::Result<()> {
    for (k, byte) in line.iter().enumerate() {
        let byte = if k == at {
            byte.wrapping_add(rise)
        } else {
            *byte
        };
        sheet.push((byte % 256) as u8)?;
    }
    Ok(())
}

fn write_run(rt: &HostRuntime, sheet: &mut Vec<u8>, run: &str) -> io::Result<()> {
    let numbers = numbers_of(rt, run)?;
    let [lines, times, at, line @ ..] = numbers.as_slice() else {
        return Ok(());
    };
    for rise in 0..*lines {
        for _ in 0..*times {
            write_line(sheet, line, *at as usize, rise)?;
        }
    }
    Ok(())
}

pub(crate) fn written(rt: &HostRuntime, runs: &str) -> io::Result<Vec<u8>> {
    let mut sheet = Vec::new(rt.alloc());
    for run in runs.split('|') {
        write_run(rt, &mut sheet, run)?;
    }
    Ok(sheet)
}

// What a case is called, and what stands behind the first bar.
pub(crate) fn parts(case: &str) -> (&str, &str) {
    case.split_once('|')
        .map_or((case, ""), |(what, rest)| (what.trim(), rest))
}
