//! A line, and what it asks for.
ghost use Rattle.std.specs.Prelude.{◌≡◌, ◌<◌, length};
ghost use Rattle.book_lines.specs.Lines.{by_letter, reading, first_line, later_lines};

use super::pieces::{cut_at, read_number, read_pair};

/// What a line asks for.
#[derive(Clone, Copy, PartialEq, Eq, Debug)]
pub enum Line {
    Survey,
    Price,
    Close(u32),
    Reopen(u32),
    Measure(u32, u32),
    Way(u32, u32),
}

fn read_fields(letter: u8, rest: &[u8]) -> Option<Line>
    ensures { result ≡ by_letter letter rest.now }
{
    match letter {
        b'C' => read_number(rest).map(Line::Close),
        b'O' => read_number(rest).map(Line::Reopen),
        b'M' => read_pair(rest).map(|(start, goal)| Line::Measure(start, goal)),
        b'W' => read_pair(rest).map(|(start, goal)| Line::Way(start, goal)),
        _ => None,
    }
}

/// Reads a line without its line feed; `None` where it asks for nothing that is known.
pub fn read_line(line: &[u8]) -> Option<Line>
    ensures { result ≡ reading line.now }
{
    match line {
        [b'S'] => Some(Line::Survey),
        [b'P'] => Some(Line::Price),
        [letter, b' ', rest @ ..] => read_fields(*letter, rest),
        _ => None,
    }
}

/// The first line of a text without its line feed, and the text that follows.
#[tactic(auto, using(crate::proofs::Cuts::before_all, crate::proofs::Cuts::behind_less))]
pub fn next_line(s: &[u8]) -> (&[u8], &[u8])
    ensures line { result.0.now ≡ first_line s.now }
    ensures rest { result.1.now ≡ later_lines s.now }
    ensures less { 0 < length s.now → length result.1.now < length s.now }
{
    cut_at(s, b'\n').unwrap_or((s, &[]))
}
