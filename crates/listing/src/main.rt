// The listing program: reads a mesh file from standard input, and prints its level 1 or why it is refused.
#![tactic(auto)]

ghost use Rattle.std.specs.Prelude.{◌≤◌, length, IfOk};

use mesh::limits::{LISTING_BYTES, LISTING_TEXT};
use std::io;
use std::io::{Read, Stdin};

// Reads until `input` is full or standard input ends, and answers how many bytes there are.
fn read_full(stdin: &mut Stdin, input: &mut [u8]) -> io::Result<usize>
    ensures { IfOk result (λ size. size ≤ length input.new) }
{
    // A `while`, as a turn goes on by as many bytes as one read gives.
    let mut size = 0;
    while size < input.len() {
        let more = stdin.read(&mut input[size..])?;
        if more == 0 {
            break;
        }
        size += more;
    }
    Ok(size)
}

fn main(rt: HostRuntime) -> io::Result<()> {
    let mut input = [0u8; LISTING_BYTES + 1];
    let size = read_full(&mut rt.stdin(), &mut input)?;
    let mut text = [0u8; LISTING_TEXT];
    let length = listing_text::listing(&input[..size], &mut text);
    rt.write_all(&text[..length])
}
