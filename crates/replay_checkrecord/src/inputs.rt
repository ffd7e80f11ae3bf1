// The stored cases of checkrecord: what it reads, and the line that it prints.
use std::fs::{Files, OpenFile};
use std::io::{Read, Seek, SeekFrom, Write};
use std::{fs, io};
use stored::{filled_up, word};

// The file that holds an input, opened twice: one handle writes it, and checkrecord's reading is handed the other.
#[derive(Drop)]
pub struct File<F> {
    writer: F,
    reader: F,
}

// Makes it, in the folder that the program is run in.
pub fn open<R: Files>(rt: &R) -> io::Result<File<R::File>> {
    let writer = fs::create(rt, "input")?;
    let reader = fs::open(rt, "input")?;
    Ok(File { writer, reader })
}

// Has it hold these bytes, and zeros behind them up to a length.
fn fill<F: Write + Seek + OpenFile>(file: &mut File<F>, start: &[u8], long: u32) -> io::Result<()> {
    file.writer.set_len(0)?;
    file.writer.seek(SeekFrom::Start(0))?;
    file.writer.write_all(start)?;
    file.writer.set_len(u64::from(long))?;
    file.reader.seek(SeekFrom::Start(0))?;
    Ok(())
}

// Whether what it holds is answered with this line.
fn answered<F: Read>(file: &mut File<F>, line: &[u8]) -> io::Result<bool> {
    let mut text = [0u8; 19];
    let long = check_text::answer(&mut file.reader, &mut text)?;
    Ok(&text[..long] == line)
}

// Bytes of the input's start, of the input, of output; the start and the output, each filled up to whole words. The input is zero past its start.
fn line<F: Read + Write + Seek + OpenFile>(case: &[u8], file: &mut File<F>) -> io::Result<bool> {
    let start = word(case, 0);
    let output = word(case, 2);
    let from = 12 + filled_up(start);
    if case.len() != from + filled_up(output) {
        return Ok(false);
    }
    let start_end = 12 + start as usize;
    fill(file, &case[12..start_end], word(case, 1))?;
    let end = from + output as usize;
    answered(file, &case[from..end])
}

// Whether the library agrees with a case, whose kind the file tells by a number.
pub fn agrees<F: Read + Write + Seek + OpenFile>(
    kind: u32,
    case: &[u8],
    file: &mut File<F>,
) -> io::Result<bool> {
    match kind {
        41 => line(case, file),
        _ => Ok(false),
    }
}
