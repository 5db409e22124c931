// What the programs read and write: a file is read until its end is certain, and a page is written whole; and what two of them
// share, a page for each file that is named.
#![tactic(auto)]

ghost use Rattle.std.specs.Prelude.{◌≡◌, true, false, ◌<◌, ◌≤◌, length, take, Ok, IfOk, OnOk, OnErr};
ghost use Rattle.std.specs.Io.{ReadsAtMost};
ghost use Rattle.std.specs.Io.KnownBytes.{Appends, Consumes, IsAtEnd, Keeps};
ghost use Rattle.streams.specs.inner.Parts.{Came, Went};

use print::Page;
use std::env::Env;
use std::fs::File;
use std::io::{Error, ErrorKind, Read, Write};
use std::rt::Files;
use std::{env, io};

// Reads until the file is full or its end is certain, and gives the number of bytes read, which stand at the file's start; an
// error where a read failed.
// A loop of its own: std's `read_to_end` fills a `Vec`, and its `read_exact` says nothing of a file that ends early.
pub fn read<R: Read>(reader: &mut R, file: &mut [u8]) -> io::Result<usize>
    ensures moved { IfOk result (λ n. n ≤ length file.old) }
    ensures in_bounds { ReadsAtMost result file.new }
    ensures bytes { IfOk result (λ n. Consumes (R.remaining reader.old) (R.remaining reader.new) (take n file.new)) }
    ensures end { IfOk result (λ n. n < length file.old → IsAtEnd (R.remaining reader.new)) }
    ensures err { OnErr result (Came (R.remaining reader.old) (R.remaining reader.new) file.new) }
{
    let mut n: usize = 0;
    while n < file.len() {
        match reader.read(&mut file[n..])? {
            0 => return Ok(n),
            got => n += got,
        }
    }
    Ok(n)
}

// Writes a page up to the place that its text reached, in one write. False where the page is full, and then nothing is
// written; an error where the write failed. (False and no error, and any place: that is the clause `full`.)
pub fn write<W: Write>(writer: &mut W, page: &[u8], end: usize) -> io::Result<bool>
    ensures full { length page.now ≤ end → result ≡ Ok false }
    ensures kept { length page.now ≤ end → Keeps (W.contents writer.old) (W.contents writer.new) }
    ensures fits { end < length page.now → IfOk result (λ written. written ≡ true) }
    ensures bytes { end < length page.now → OnOk result (Appends (W.contents writer.old) (W.contents writer.new) (take end page.now)) }
    ensures err { OnErr result (Went (W.contents writer.old) (W.contents writer.new) (take end page.now)) }
{
    if page.len() <= end {
        return Ok(false);
    }
    write_all(writer, &page[..end])?;
    Ok(true)
}

// Writes all of a text: in one write, where the writer takes it whole.
// A loop of its own: std's `write_all` says nothing of what an error leaves (the clause `err`).
fn write_all<W: Write>(writer: &mut W, text: &[u8]) -> io::Result<()>
    ensures bytes { OnOk result (Appends (W.contents writer.old) (W.contents writer.new) text.now) }
    ensures err { OnErr result (Went (W.contents writer.old) (W.contents writer.new) text.now) }
{
    let mut n: usize = 0;
    while n < text.len() {
        let put = writer.write(&text[n..])?;
        if put == 0 {
            return Err(Error::from(ErrorKind::WriteZero));
        }
        n += put;
    }
    Ok(())
}

// Writes a page for each file that an argument names: what `tell` makes of the file's name and its bytes, or of the words that
// say why they are not known. The bytes stand in the room that is lent, and the page on those that are. A page that cannot be
// written is passed over, and said to be; an error, where the arguments cannot be had, comes before the first.
pub fn each_file<R, W, F>(
    rt: &R,
    output: &mut W,
    room: &mut [u8],
    bytes: &mut [u8],
    tell: F,
) -> io::Result<()>
where
    R: Env + Files + AllocGlobal,
    W: Write,
    F: Fn(&mut Page, &str, Result<&[u8], &str>),
    requires { F.IsAlwaysCallable tell }
    ensures { OnErr result (Keeps (W.contents output.old) (W.contents output.new)) }
{
    for path in env::args(rt)?.skip(1) {
        let mut page = Page::at(bytes, 0);
        let read = bytes_of(rt, path.as_str(), room);
        tell(&mut page, path.as_str(), read);
        let end = page.end;
        if !matches!(write(output, bytes, end), Ok(true)) {
            let _ = output.write_all(b"cannot be written\n");
        }
    }
    Ok(())
}

// The bytes of a file, as many as there is room for, or the words that say why they are not known.
fn bytes_of<'a>(
    files: &impl Files,
    path: &str,
    room: &'a mut [u8],
) -> Result<&'a [u8], &'static str> {
    let Ok(mut file) = File::open(files, path) else {
        return Err("cannot be opened");
    };
    match read(&mut file, room) {
        Ok(n) => Ok(&room[..n]),
        Err(_) => Err("cannot be read"),
    }
}
