// Reading until a buffer is full or the input ends.
#![tactic(auto)]

ghost use Rattle.std.specs.Prelude.{IfOk, IfErr};
ghost use Rattle.io.specs.Counts.{IsPrefixLen};

use std::io::Read;

// A read failed, behind so many bytes at the front of the buffer.
#[derive(Clone, Copy, Debug, PartialEq, Eq)]
pub struct ReadFailed {
    pub read: usize,
}

// Reads until the buffer is full, the input ends or a read fails. Gives how many bytes stand at the front of the buffer.
pub fn read_all<R: Read>(from: &mut R, buf: &mut [u8]) -> Result<usize, ReadFailed>
    ensures ok { IfOk result (λ n. IsPrefixLen n buf.new) }
    ensures err { IfErr result (λ e. IsPrefixLen e.read buf.new) }
{
    let mut read: usize = 0;
    // No `for`: each read says how far it came.
    while read < buf.len() {
        match from.read(&mut buf[read..]) {
            Ok(0) => break,
            Ok(n) => read += n,
            Err(_) => return Err(ReadFailed { read }),
        }
    }
    Ok(read)
}
