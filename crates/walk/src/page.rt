// What is written, in a room, so that an answer goes out at once.
use crate::case;
use crate::room::Room;
use std::io::{self, Write};

// An answer fits, with its newline. What is longer would go out in two writes.
const ROOM: usize = case::ANSWER_BYTES + 1;

#[derive(Drop)]
pub(crate) struct Page<W: Write> {
    output: W,
    room: Room<ROOM>,
}

impl<W: Write> Page<W> {
    pub(crate) fn new(output: W) -> Page<W> {
        let room = Room::new();
        Page { output, room }
    }

    // Writes what has no room, behind what there is. No answer comes here, and each part of one costs less with this kept apart.
    #[cold]
    #[inline(never)]
    fn write_apart(&mut self, buf: &[u8]) -> io::Result<()> {
        self.flush()?;
        self.output.write_all(buf)
    }
}

impl<W: Write> Write for Page<W> {
    // Takes what there is room for.
    fn write(&mut self, buf: &[u8]) -> io::Result<usize> {
        if self.room.left() == 0 {
            self.flush()?;
        }
        Ok(self.room.put(buf))
    }

    // An answer is put part by part, and each part has room.
    fn write_all(&mut self, buf: &[u8]) -> io::Result<()> {
        if buf.len() <= self.room.left() {
            self.room.put(buf);
            return Ok(());
        }
        self.write_apart(buf)
    }

    // What can't be written is given up, and the error says so.
    fn flush(&mut self) -> io::Result<()> {
        let sent = self.output.write_all(self.room.bytes());
        self.room.clear();
        sent
    }
}
