ghost use Rattle.std.specs.Prelude.{◌<◌};

use crate::comparing::same;
use rk_script::{Numbered, ParseError, ScriptReader, parse};
use std::alloc::Global;

// What was read: how many commands a script has and the code 0, or the line and the code of its first refusal.
fn told(read: Result<Vec<Numbered>, ParseError>) -> (usize, u8) {
    match read {
        Ok(commands) => (commands.len(), 0),
        Err(ParseError::Refused { line, code }) => (line as usize, code.number()),
        Err(ParseError::NoMemory) => (0, 5),
    }
}

// What a reader answers that is fed a script in pieces of this size.
fn read_by(alloc: Global, script: &[u8], size: usize) -> Result<Vec<Numbered>, ParseError>
    requires { 0 < size }
{
    let mut reader = ScriptReader::new(alloc);
    for piece in script.chunks(size) {
        reader.feed(piece)?;
    }
    reader.finish()
}

// A script that is cut into pieces of any size, one byte and the whole among them, says what it says uncut. It has comments,
// both ends of lines, empty lines, and a last line without an end; one is refused in the middle, and one in its last line.
#[test]
fn reads_pieces_of_any_size(rt: HostRuntime) {
    let rows: [(&[u8], (usize, u8)); 4] = [
        (
            b"# two\r\nmasters 2\r\n\ncall 1 put 7 key value\nsettle",
            (3, 0),
        ),
        (b"settle\r\nmasters 2\n\nfrob\nsettle\r", (4, 1)),
        (b"settle\n\tdump 1 \r", (2, 6)),
        (b"\n\r\n", (0, 0)),
    ];
    for (script, wanted) in rows {
        same(&rt, &told(parse(rt.alloc(), script)), &wanted);
        for size in 1..=script.len() {
            same(&rt, &told(read_by(rt.alloc(), script, size)), &wanted);
        }
    }
}
