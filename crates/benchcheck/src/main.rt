// benchcheck: reads a bench file on standard input and prints its records. Document 01, "Bench file".
// Its buffers, with the 1,024 bytes of eprintln, are together below 65,536 bytes.
#![tactic(auto)]

use std::io;

fn main(rt: HostRuntime) {
    // One byte more than the longest file has, so that a longer one is seen to be longer.
    let mut buf = [0u8; 60001];
    let Ok(n) = input::read_all(&mut rt.stdin(), &mut buf) else {
        let _ = rt.eprintln("benchcheck: standard input cannot be read");
        return;
    };
    // Printing ends at a write that fails, and nothing is said of it.
    let _ = report::print(&buf[..n], &mut io::writer(&rt));
}
