// Reading to the front of a buffer, from all that can be read.
#![tactic(auto)]

ghost use Rattle.std.specs.Prelude.{◌≡◌, ◌+◌, ◌≤◌, ◌<◌, length, take, drop, IfOk, OnOk, OnErr};
ghost use Rattle.std.specs.Io.KnownBytes.{Consumes, IsAtEnd, Keeps};

use std::io;
use std::io::{ErrorKind, Read};

// How many bytes were read to the front of a buffer, and whether the buffer is then full or the reader at its end, or which error came before that.
#[derive(Drop)]
pub struct Filled {
    pub count: usize,
    pub whole: io::Result<()>,
}

// One read, to the buffer from a place on.
fn read_at<R: Read>(from: &mut R, buffer: &mut [u8], at: usize) -> io::Result<usize>
    requires { at ≤ length buffer.old }
    ensures front { take at buffer.new ≡ take at buffer.old }
    ensures fits { IfOk result (λ n. at + n ≤ length buffer.new) }
    ensures ok { IfOk result (λ n. Consumes (R.remaining from.old) (R.remaining from.new) (take n (drop at buffer.new))) }
    ensures err { OnErr result (Keeps (R.remaining from.old) (R.remaining from.new)) }
    ensures end { IfOk result (λ n. n ≡ 0 → at < length buffer.old → IsAtEnd (R.remaining from.new)) }
{
    from.read(&mut buffer[at..])
}

// Reads until the buffer is full, the reader is at its end, or a read fails, and again where a signal interrupts it.
// Where the reader tells which bytes it has left, it loses just those that stand in the buffer.
pub fn read_full<R: Read>(from: &mut R, buffer: &mut [u8]) -> Filled
    ensures in_bounds { result.count ≤ length buffer.new }
    ensures bytes { Consumes (R.remaining from.old) (R.remaining from.new) (take result.count buffer.new) }
    ensures end { OnOk result.whole (result.count < length buffer.new → IsAtEnd (R.remaining from.new)) }
{
    let mut count = 0;
    for _ in 0..u64::MAX {
        if count >= buffer.len() {
            return Filled {
                count,
                whole: Ok(()),
            };
        }
        match read_at(from, buffer, count) {
            Ok(0) => return Filled {
                count,
                whole: Ok(()),
            },
            Ok(n) => count += n,
            Err(e) => {
                if e.kind() != ErrorKind::Interrupted {
                    return Filled {
                        count,
                        whole: Err(e),
                    };
                }
            }
        }
    }
    Filled {
        count,
        whole: Err(io::Error::from(ErrorKind::TimedOut)),
    }
}
