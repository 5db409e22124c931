// Clears the market on standard input and writes its lines to standard output, in one write. What cannot be read or written
// is said on standard error. Started with an argument, it tells its caller on descriptor 3, last of all, what became of the
// market; its exit status is 0 whatever that was.
#![tactic(auto)]

use anyhow::{Context, Result, bail};
use print::Page;
use std::env::FillError;
use std::fs::OpenOptions;
use std::io::{Read, Write};
use std::rt::{Env, Files};

// Descriptor 3, as a file.
const CALLER: &str = "/dev/fd/3";

// What became of the market, by the digit that the caller is told.
#[derive(Clone, Copy)]
enum Outcome {
    Cleared = b'0' as isize,
    Refused = b'1' as isize,
    NoAnswer = b'2' as isize,
}

// Clears the market on the input and writes its lines. A file of more than 33,016 bytes is read no further than to 33,024,
// which shows that it is too long. The longest answer, 32 lines of at most 20 bytes, 31 of at most 17 and a last one, takes
// less than 1,200 of the page's bytes.
fn clear<R: Read, W: Write>(input: &mut R, output: &mut W) -> Result<Outcome> {
    let mut file = [0u8; 33024];
    let n = streams::read(input, &mut file).context("cannot read the market")?;
    let mut bytes = [0u8; 2048];
    let mut page = Page::at(&mut bytes, 0);
    let cleared = show::lines(&file[..n], &mut page);
    let end = page.end;
    if !streams::write(output, &bytes, end).context("cannot write the answer")? {
        bail!("cannot write the answer: it is longer than its page");
    }
    match cleared {
        Ok(()) => Ok(Outcome::Cleared),
        Err(_) => Ok(Outcome::Refused),
    }
}

fn has_argument(env: &impl Env) -> bool {
    !matches!(env.arg(1, &mut []), Err(FillError::NotPresent))
}

// Tells the caller, if there is one. The descriptor is opened again, to read too: a pipe that no one reads any more would not
// open to write alone, and the program would wait for a reader.
fn tell(files: &impl Files, outcome: Outcome) {
    let opened = OpenOptions::new()
        .read(true)
        .append(true)
        .open(files, CALLER);
    if let Ok(mut caller) = opened {
        let _ = caller.write_all(&[outcome as u8]);
    }
}

fn main(rt: HostRuntime) {
    let outcome = clear(&mut rt.stdin(), &mut rt.stdout()).unwrap_or_else(|error| {
        let _ = eprintln!(rt; "clear: {error:#}");
        Outcome::NoAnswer
    });
    if has_argument(&rt) {
        tell(&rt, outcome);
    }
}
