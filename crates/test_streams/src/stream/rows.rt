//! Sessions of streams, row by row. A row that gets no memory is played again; if the decoder's sink got none, so is
//! the session.

use crate::stream::Stream;
use crate::stream::reply::Reply;
use std::fs::Files;
use std::io;
use tendril_block::{Atomicity, Refusal};
use test_rows::place::{Counts, Place, Row, compare, wrong};
use test_rows::player::out_of_memory;

/// Plays all sessions of a file, each on a stream of its own.
pub fn play_streams<A: Atomicity>(
    rt: &(impl Files + Print + AllocGlobal),
    file: &str,
    text: &str,
) -> io::Result<Counts> {
    let mut play = Play {
        reply: Reply::new(rt.alloc())?,
        counts: Counts::none(),
    };
    let mut place = Place::first(file);
    for session in text.split("\n\n") {
        play.session::<A>(rt, place, session)?;
        place = place.after(session);
    }
    Ok(play.counts)
}

/// A file that is played row by row.
#[derive(Drop)]
struct Play {
    /// The reply to the last row.
    reply: Reply,
    counts: Counts,
}

impl Play {
    fn session<A: Atomicity>(
        &mut self,
        rt: &(impl Files + Print + AllocGlobal),
        place: Place,
        session: &str,
    ) -> io::Result<()> {
        if !self.rows::<A>(rt, place, session)? && !self.rows::<A>(rt, place, session)? {
            wrong(rt, place, session, "its sink got no memory twice")?;
            self.counts.add_wrong();
        }
        self.counts.add_session();
        Ok(())
    }

    // Plays the rows of a session. Returns whether it was played to its end.
    fn rows<A: Atomicity>(
        &mut self,
        rt: &(impl Files + Print + AllocGlobal),
        place: Place,
        session: &str,
    ) -> io::Result<bool> {
        let mut stream = Stream::<A>::new(rt.alloc()).map_err(out_of_memory)?;
        for (index, line) in session.lines().enumerate() {
            if !line.starts_with('#') {
                self.counts.add_row();
                if !self.row(rt, &mut stream, place.down(index), line)? {
                    return Ok(false);
                }
            }
        }
        Ok(true)
    }

    // Plays one row, as often as it says. Returns whether the stream can go on.
    fn row<A: Atomicity>(
        &mut self,
        rt: &(impl Files + Print),
        stream: &mut Stream<A>,
        place: Place,
        line: &str,
    ) -> io::Result<bool> {
        let Some(row) = Row::read(line) else {
            wrong(rt, place, line, "no reply")?;
            self.counts.add_wrong();
            return Ok(true);
        };
        for _ in 0..row.times {
            if !self.once(rt, stream, place, row)? {
                return Ok(false);
            }
        }
        Ok(true)
    }

    // Returns whether the stream can go on. If its sink got no memory, what was sent to it before must be a prefix of
    // what is expected, and the stream must have failed for good.
    fn once<A: Atomicity>(
        &mut self,
        rt: &(impl Files + Print),
        stream: &mut Stream<A>,
        place: Place,
        row: Row,
    ) -> io::Result<bool> {
        self.reply.clear();
        if stream.answer(rt, row.line, &mut self.reply).is_err() {
            self.counts.add_refused();
            self.reply.clear();
            stream
                .answer(rt, row.line, &mut self.reply)
                .map_err(out_of_memory)?;
        }
        let reply = self.reply.as_str();
        let right = if !stream.is_out_of_memory() {
            compare(rt, place, row, reply)?
        } else if is_beginning(reply, row.expected) && stream.ends_failed() {
            self.counts.add_refused();
            return Ok(false);
        } else {
            wrong(
                rt,
                place,
                row.line,
                "its sink got no memory, and the stream goes on",
            )?
        };
        if !right {
            self.counts.add_wrong();
        }
        Ok(true)
    }
}

const SINK_REFUSED: &str = "refused 10 SinkRefused";

// Whether a reply is a prefix of the expected one and then an error. How often equal texts were sent isn't compared. If
// the expected reply is only the error, since that drops the sink, what was sent before isn't compared either.
fn is_beginning(reply: &str, expected: &str) -> bool {
    match reply.strip_suffix(SINK_REFUSED) {
        Some(_) if expected == SINK_REFUSED => true,
        Some(front) => {
            let front = front.strip_suffix("; ").unwrap_or(front);
            expected.starts_with(front.trim_end_matches(|c: char| c.is_ascii_digit()))
        }
        None => false,
    }
}
