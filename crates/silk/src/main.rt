// The program `silk`: reads the text of a sheet from standard input, and writes what comes of it to standard output.
#![tactic(auto)]

use silk_reply::{ROOM, TEXT, serve};
use std::io;

fn main(rt: HostRuntime) -> io::Result<()> {
    let mut text = [0u8; TEXT];
    let mut out = [0u8; ROOM];
    let mut input = rt.stdin();
    let mut output = rt.stdout();
    serve(&mut input, &mut output, &mut text, &mut out).done()
}
