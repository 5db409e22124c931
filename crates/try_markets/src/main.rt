// Writes of each file that an argument names its name, and then the lines of its clearing.
#![tactic(auto)]

use print::Page;
use std::io;

fn tell(page: &mut Page, name: &str, file: Result<&[u8], &str>) {
    page.line(name.as_bytes(), &[]);
    match file {
        Ok(file) => {
            let _ = show::lines(file, page);
        }
        Err(why) => page.line(why.as_bytes(), &[]),
    }
}

fn main(rt: HostRuntime) -> io::Result<()> {
    streams::each_file(&rt, &mut rt.stdout(), &mut [0; 33024], &mut [0; 2112], tell)
}
