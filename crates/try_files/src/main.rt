// Writes of each file that an argument names the walk of its market, or its refusal under 1 to 10, 13 or 14.
#![tactic(auto)]

use network::Feeder;
use numbers::Whole;
use print::Page;
use std::io;

// Member 1, and then each member as it was reached: from which member, and what their link carries.
fn walk(page: &mut Page, feeder: &Feeder) {
    let members = feeder.members as usize;
    page.text(b" ");
    page.number(feeder.position[0].member.number());
    for reached in &feeder.position[1..members] {
        let from = feeder.position[reached.parent as usize];
        page.text(b" ");
        page.number(reached.member.number());
        page.text(b"<");
        page.number(from.member.number());
        page.text(b":");
        page.number(reached.toward.number());
    }
    page.text(b"\n");
}

fn tell(page: &mut Page, name: &str, file: Result<&[u8], &str>) {
    page.text(name.as_bytes());
    match file.map(market::market) {
        Ok(Ok(feeder)) => walk(page, &feeder),
        Ok(Err(refusal)) => page.line(b" R", &[refusal.rule.number().into(), refusal.place.into()]),
        Err(why) => {
            page.text(b" ");
            page.line(why.as_bytes(), &[]);
        }
    }
}

fn main(rt: HostRuntime) -> io::Result<()> {
    streams::each_file(&rt, &mut rt.stdout(), &mut [0; 33032], &mut [0; 1024], tell)
}
