// A list of calls on standard input, its answer on standard output; on a refusal the editor's number alone and CRLF.
// It reads one byte more than a file may have, so as to see the difference. Rests on the runner and the printer of numbers.
#![tactic(auto)]

ghost use Rattle.std.specs.Prelude.{◌≤◌, length, IfOk};

use std::io;
use std::io::{ErrorKind, Read, Write};
use text::decimals::put_decimal;
use text::words::put_byte;

// Fills the buffer with the input, as far as the input goes; says how many bytes came.
fn read_full(input: &mut impl Read, file: &mut [u8]) -> io::Result<usize>
    ensures { IfOk result (λ n. n ≤ length file.new) }
{
    let mut n = 0;
    for _ in 0..u64::MAX {
        match input.read(&mut file[n..]) {
            Ok(0) => return Ok(n),
            Ok(k) => n += k,
            Err(e) => {
                if e.kind() != ErrorKind::Interrupted {
                    return Err(e);
                }
            }
        }
    }
    Ok(n)
}

// Buffers of fixed size: what it is given is no longer, and the library takes no memory either.
fn main(rt: HostRuntime) -> io::Result<()> {
    let mut file = [0u8; 65537];
    let n = read_full(&mut rt.reader(), &mut file)?;
    let mut answer = [0u8; 65536];
    let r = runner::run_list(&file[..n], &mut answer);
    let mut output = io::writer(&rt);
    if r < 0 {
        let a = put_byte(&mut answer, 0, b'-');
        let b = put_decimal(&mut answer, a, (0 - r) as u32);
        let c = put_byte(&mut answer, b, b'\r');
        let end = put_byte(&mut answer, c, b'\n');
        return output.write_all(&answer[..end]);
    }
    output.write_all(&answer[..r as usize])
}
