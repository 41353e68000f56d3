// compare: reads the bench files first.bench and second.bench of its folder and prints where they differ. Document 02, ticket 5.
// Its buffers, with the 4,096 bytes that opening a file takes, are together below 65,536 bytes.
#![tactic(auto)]

ghost use Rattle.std.specs.Prelude.{IfOk, IfErr};
ghost use Rattle.io.specs.Counts.{IsPrefixLen};

use input::ReadFailed;
use std::rt::Files;
use std::{fs, io};

// A file by its name, at the front of a buffer.
fn read_file<R: Files>(rt: &R, name: &str, buf: &mut [u8]) -> Result<usize, ReadFailed>
    ensures ok { IfOk result (λ n. IsPrefixLen n buf.new) }
    ensures err { IfErr result (λ e. IsPrefixLen e.read buf.new) }
{
    match fs::open(rt, name) {
        Ok(mut file) => input::read_all(&mut file, buf),
        Err(_) => Err(ReadFailed { read: 0 }),
    }
}

fn say_unread(rt: &impl Eprint, name: &str) {
    let _ = eprintln!(rt; "compare: {name} cannot be read");
}

fn main(rt: HostRuntime) {
    // One byte more than the longest file has, so that a longer one is seen to be longer.
    let mut a = [0u8; comparison::MOST_BYTES + 1];
    let mut b = [0u8; comparison::MOST_BYTES + 1];
    let Ok(n) = read_file(&rt, "first.bench", &mut a) else {
        say_unread(&rt, "first.bench");
        return;
    };
    let Ok(m) = read_file(&rt, "second.bench", &mut b) else {
        say_unread(&rt, "second.bench");
        return;
    };
    // Printing ends at a write that fails, and nothing is said of it.
    let _ = comparison::print(&a[..n], &b[..m], &mut io::writer(&rt));
}
