// Writes each record on standard input as it is read.
#![tactic(auto)]

use numbers::Whole;
use print::Page;
use records::{Record, Rule, Terms};
use std::io::Write;

fn line(page: &mut Page, record: Result<Record, Rule>) {
    match record {
        Ok(Record::Link(a, b, capacity)) => {
            page.line(b"link", &[a.number(), b.number(), capacity.number()]);
        }
        Ok(Record::Offer(member, Terms::Point(amount, price))) => {
            page.line(
                b"offer",
                &[member.number(), amount.number(), price.number()],
            );
        }
        Ok(Record::Offer(member, Terms::Span(low, high, slope, base))) => {
            let (low, high) = (low.number(), high.number());
            page.line(
                b"span",
                &[member.number(), low, high, slope.number(), base.number()],
            );
        }
        Ok(Record::Begins(member)) => page.line(b"begins", &[member.number()]),
        Err(rule) => page.line(b"fault", &[i64::from(rule.number())]),
    }
}

// Writes the records of a file, each on its line.
fn write<W: Write>(output: &mut W, file: &[u8]) {
    let mut bytes = [0u8; 4096];
    let mut page = Page::at(&mut bytes, 0);
    for i in 0..file.len() / 8 {
        line(&mut page, records::read_at(file, i));
    }
    let end = page.end;
    if !matches!(streams::write(output, &bytes, end), Ok(true)) {
        let _ = output.write_all(b"cannot be written\n");
    }
}

fn main(rt: HostRuntime) {
    let mut file = [0u8; 2048];
    match streams::read(&mut rt.stdin(), &mut file) {
        Ok(n) => write(&mut rt.stdout(), &file[..n]),
        Err(_) => {
            let _ = println!(rt; "cannot be read");
        }
    }
}
