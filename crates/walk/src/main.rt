// Reads case lines from standard input to its end, and writes one answer line for each.
#![tactic(auto)]

mod call;
mod case;
mod front;
mod kind;
mod page;
mod reply;
mod room;

use page::Page;
use room::Room;
use std::io::{self, Read, Write};

// The most bytes that are read at once.
const PART_BYTES: usize = 4096;

// What is kept of a line. It may have a carriage return behind it, and is too long if it fills the rest too: what is behind that is
// left out.
const LINE_ROOM: usize = case::LINE_BYTES + 2;

// Answers a line. One carriage return at its end is let pass.
fn answer(output: &mut impl Write, line: &[u8]) -> io::Result<()> {
    case::answer(output, line.strip_suffix(b"\r").unwrap_or(line))?;
    output.write_all(b"\n")?;
    output.flush()
}

// Takes a part of the input in, and answers each line that it ends. What is then in `line` is the next line's.
fn take(output: &mut impl Write, part: &[u8], line: &mut Room<LINE_ROOM>) -> io::Result<()> {
    for (i, piece) in part.split(|b| *b == b'\n').enumerate() {
        // A piece behind the first stands behind a newline, which ends what there is of a line.
        if 0 < i {
            answer(output, line.bytes())?;
            line.clear();
        }
        line.put(piece);
    }
    Ok(())
}

// A proved loop has to end, and nothing says that the input does. So it counts its reads, up to a number that no run uses up. At the
// end of the input, what there is of a line is a line.
fn run(input: &mut impl Read, output: &mut impl Write) -> io::Result<()> {
    let mut line = Room::new();
    let mut part = [0u8; PART_BYTES];
    for _ in 0..u64::MAX {
        let n = input.read(&mut part)?;
        if n == 0 {
            break;
        }
        take(output, &part[..n], &mut line)?;
    }
    if !line.bytes().is_empty() {
        answer(output, line.bytes())?;
    }
    Ok(())
}

fn main(rt: HostRuntime) -> io::Result<()> {
    run(&mut rt.reader(), &mut Page::new(io::writer(&rt)))
}
