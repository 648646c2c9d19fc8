// The check program: reads site.dat and check.dat in the folder that it runs in, and prints what the chain answers.
#![tactic(auto)]

mod screen;

use files::reading::read_file;
use screen::show;
use std::io;

const SITE_BYTES: usize = 8448;

const CHECK_BYTES: usize = 128;

// A first line, and 4,096 words of at most twenty digits with a byte behind each.
const SCREEN_BYTES: usize = 86070;

fn main(rt: HostRuntime) -> io::Result<()> {
    let mut site = [0u8; SITE_BYTES];
    let zones = read_file(&rt, b"site.dat", &mut site);
    let mut check = [0u8; CHECK_BYTES];
    let question = read_file(&rt, b"check.dat", &mut check);
    let mut out = [0u8; SCREEN_BYTES];
    let size = show(&site, zones, &check, question, &mut out);
    rt.write_all(&out[..size])
}
