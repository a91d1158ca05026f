//! Closings and reopenings that are tried on the roads before they are shown.
ghost use Rattle.std.specs.Prelude.{◌≡◌, Some};
ghost use Rattle.roads.specs.Faults.{reported};
ghost use Rattle.book_lines.specs.Lines.{reading};
ghost use Rattle.board.specs.Changes.{line_fault, change_text};

use book_lines::{Line, read_line};
use closings::Closable;
use roads::Roads;
use roads::fault::{Fault, Part, Refusal};
use std::fmt;

/// What a line did.
#[derive(Clone, Copy)]
pub enum Change {
    Closed(u32),
    Reopened(u32),
}

/// Does what a line asks for, which is to close or to reopen a road.
pub fn apply_line<R: Closable>(roads: &mut R, line: &[u8], number: usize) -> Result<Change, Fault>
    ensures { reported result ≡ line_fault (R.Roads.meaning roads.old).roads (R.Closable.closures roads.old) number (reading line.now) }
{
    match read_line(line) {
        Some(Line::Close(road)) => {
            roads.close(road)?;
            Ok(Change::Closed(road))
        }
        Some(Line::Reopen(road)) => {
            roads.reopen(road)?;
            Ok(Change::Reopened(road))
        }
        _ => Err(Fault::new(Refusal::Line, number, Part::Book)),
    }
}

impl fmt::Display for Change {
    ghost output = { λ x. Some (change_text x) };

    fn fmt<W: fmt::Write>(&self, f: &mut fmt::Formatter<W>) -> fmt::Result {
        match self {
            Change::Closed(road) => write!(f, "closed {road}"),
            Change::Reopened(road) => write!(f, "reopened {road}"),
        }
    }
}
