//! Sessions row by row. A row that gets no memory must leave the table as it was, and is played again.

use crate::lined::{Lined, Player};
use crate::notes::Notes;
use crate::own::own_reply;
use std::alloc::{AllocError, Global};
use std::fmt::{self, Display, Formatter};
use std::io;
use tendril_block::Refusal;
use tendril_lines::parse;
use test_rows::place::{Counts, Place, Row, compare, wrong};

/// Plays all sessions of a file on tables of one kind, and again on tables of another kind. The tables must hold the
/// same after each row.
pub fn play_twice<T: Lined, U: Lined>(
    rt: &(impl Print + AllocGlobal),
    file: &str,
    text: &str,
) -> io::Result<Counts> {
    let mut play = played::<T>(rt, file, text)?;
    let mut counts = play.counts;
    if counts.all_right() {
        play.notes.play_again();
        play.counts = Counts::none();
        play.file::<U>(rt, file, text)?;
        counts.add_again(play.counts);
    }
    Ok(counts)
}

/// Plays all sessions of a file.
pub fn play_rows<T: Lined>(
    rt: &(impl Print + AllocGlobal),
    file: &str,
    text: &str,
) -> io::Result<Counts> {
    Ok(played::<T>(rt, file, text)?.counts)
}

// Plays all sessions of a file for the first time.
fn played<T: Lined>(rt: &(impl Print + AllocGlobal), file: &str, text: &str) -> io::Result<Play> {
    let mut play = Play::new(rt.alloc())?;
    play.file::<T>(rt, file, text)?;
    Ok(play)
}

/// A file that is played row by row.
#[derive(Drop)]
struct Play {
    notes: Notes,
    counts: Counts,
}

impl Play {
    fn new(alloc: Global) -> Result<Self, AllocError> {
        Ok(Play {
            notes: Notes::new(alloc)?,
            counts: Counts::none(),
        })
    }

    // Plays each session of a file on a table of its own.
    fn file<T: Lined>(
        &mut self,
        rt: &(impl Print + AllocGlobal),
        file: &str,
        text: &str,
    ) -> io::Result<()> {
        let mut place = Place::first(file);
        for session in text.split("\n\n") {
            self.session::<T>(rt, place, session)?;
            place = place.after(session);
        }
        Ok(())
    }

    fn session<T: Lined>(
        &mut self,
        rt: &(impl Print + AllocGlobal),
        place: Place,
        session: &str,
    ) -> io::Result<()> {
        let mut player = Player::<T>::new(rt.alloc());
        self.notes.add(&player.table)?;
        for (index, line) in session.lines().enumerate() {
            if !line.starts_with('#') {
                self.counts.add_row();
                if !self.row(rt, &mut player, place.down(index), line)? {
                    self.counts.add_wrong();
                }
            }
        }
        self.counts.add_session();
        Ok(())
    }

    // Plays one row, as often as it says. Returns whether all is as expected.
    fn row<T: Lined>(
        &mut self,
        rt: &(impl Print + AllocGlobal),
        player: &mut Player<T>,
        place: Place,
        line: &str,
    ) -> io::Result<bool> {
        let Some(row) = Row::read(line) else {
            return wrong(rt, place, line, "no reply");
        };
        for _ in 0..row.times {
            if !self.once(rt, player, place, row)? {
                return Ok(false);
            }
            if !self.notes.add(&player.table)? {
                return wrong(
                    rt,
                    place,
                    row.line,
                    "another kind of table holds something else",
                );
            }
        }
        Ok(true)
    }

    fn once<T: Lined>(
        &mut self,
        rt: &(impl Print + AllocGlobal),
        player: &mut Player<T>,
        place: Place,
        row: Row,
    ) -> io::Result<bool> {
        let mut reply = self.reply_to(rt.alloc(), player, row.line);
        if let Err(Unplayed::NoMemory) = reply {
            self.counts.add_refused();
            if !self.notes.is_last(&player.table)? {
                return wrong(
                    rt,
                    place,
                    row.line,
                    "it got no memory, and the table has changed",
                );
            }
            reply = self.reply_to(rt.alloc(), player, row.line);
        }
        match reply {
            Ok(reply) => compare(rt, place, row, reply.as_str()),
            Err(why) => wrong(rt, place, row.line, why),
        }
    }

    // The reply to a line. If the reply's text gets no memory, it is printed again.
    fn reply_to<T: Lined>(
        &mut self,
        alloc: Global,
        player: &mut Player<T>,
        line: &str,
    ) -> Result<String, Unplayed> {
        let Some(command) = parse::<T::Command>(alloc, line.as_bytes()).map_err(why_unplayed)?
        else {
            return reply_to_other(alloc, player, line).map_err(why_unplayed);
        };
        let reply = match carry_out(player, &command) {
            Ok(reply) => reply,
            Err(_) if player.is_silent() && !line.starts_with("text ") => {
                return Err(Unplayed::Allocated);
            }
            Err(refusal) => return Err(why_unplayed(refusal)),
        };
        match T::print(alloc, &reply) {
            Ok(text) => Ok(text),
            Err(_) => {
                self.counts.add_refused();
                T::print(alloc, &reply).map_err(why_unplayed)
            }
        }
    }
}

/// Why a line has no reply.
#[derive(Clone, Copy)]
enum Unplayed {
    NoMemory,
    /// A command that may not allocate did.
    Allocated,
    /// A line of the player's own has a wrong word, or returned this error.
    Refused(Refusal),
}

impl Display for Unplayed {
    fn fmt<W: fmt::Write>(&self, f: &mut Formatter<W>) -> fmt::Result {
        match self {
            Unplayed::NoMemory => f.write_str("it got no memory twice"),
            Unplayed::Allocated => f.write_str("it allocated"),
            Unplayed::Refused(refusal) => write!(f, "refused {refusal}"),
        }
    }
}

fn why_unplayed(refusal: Refusal) -> Unplayed {
    match refusal {
        Refusal::Memory => Unplayed::NoMemory,
        _ => Unplayed::Refused(refusal),
    }
}

// The reply to a command. A reply that it got no memory is returned as the error Memory.
fn carry_out<T: Lined>(player: &mut Player<T>, command: &T::Command) -> Result<T::Reply, Refusal> {
    let reply = player.step(command)?;
    if T::got_no_memory(&reply) {
        return Err(Refusal::Memory);
    }
    Ok(reply)
}

// The reply to a line that is no command.
fn reply_to_other<T: Lined>(
    alloc: Global,
    player: &mut Player<T>,
    line: &str,
) -> Result<String, Refusal> {
    match own_reply(alloc, player, line)? {
        Some(reply) => Ok(reply),
        None => Ok(String::from_str(alloc, "malformed")?),
    }
}
