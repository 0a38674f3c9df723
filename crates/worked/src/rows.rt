// The lines of a file, and what each shows.
ghost use Rattle.std.specs.Prelude.{◌≡◌, ◌≤◌, ◌+◌, length};

use crate::read::parted;
use crate::stores::Lent;
use package::refusals::{Refusal, refusal_in};
use std::{fmt, io};

// How much is shown of a row, by the mark before it: all where there is none; the row and its refusal; the refusal alone; nothing.
#[derive(Clone, Copy, Debug, PartialEq, Eq)]
pub enum Shown {
    Whole,
    Answer,
    Refusal,
    Nothing,
}

// A row: its call, and the texts before and behind what the call answers.
#[derive(Clone, Copy)]
pub struct Row<'a> {
    pub shown: Shown,
    pub title: &'a [u8],
    pub call: &'a [u8],
    tail: &'a [u8],
}

// What a line is.
#[derive(Clone, Copy)]
enum Line<'a> {
    Remark,
    Text(&'a [u8]),
    Row(Row<'a>),
}

// Shows a line. Texts are written as the bytes that they are, since a file need not be UTF-8.
pub fn show_line(rt: &impl Print, lent: &mut Lent, line: &[u8]) -> io::Result<()> {
    match Line::of(line) {
        Line::Remark => Ok(()),
        Line::Text([]) => rt.write_all(b"\n"),
        Line::Text(text) => rt.write_all(text),
        Line::Row(row) => row.show(rt, lent),
    }
}

impl<'a> Line<'a> {
    fn of(line: &'a [u8]) -> Line<'a> {
        match line {
            [] | [b'#', ..] => Line::Remark,
            [b'"', text @ ..] => Line::Text(text),
            [b'.', row @ ..] => Line::Row(Row::of(Shown::Answer, row)),
            [b'+', row @ ..] => Line::Row(Row::of(Shown::Refusal, row)),
            [b'-', row @ ..] => Line::Row(Row::of(Shown::Nothing, row)),
            _ => Line::Row(Row::of(Shown::Whole, line)),
        }
    }
}

impl<'a> Row<'a> {
    // A row with no title is its own, and so is a title with nothing behind it.
    fn of(shown: Shown, line: &'a [u8]) -> Row<'a>
        ensures { length line.now ≤ length result.title.now + 1 → result.call.now ≡ result.title.now }
    {
        let (title, rest) = parted(line, b'|');
        let (call, tail) = if rest.is_empty() {
            (title, rest)
        } else {
            parted(rest, b'|')
        };
        Row {
            shown,
            title,
            call,
            tail,
        }
    }

    fn show(self, rt: &impl Print, lent: &mut Lent) -> io::Result<()> {
        match self.shown {
            Shown::Whole | Shown::Answer => {
                rt.write_all(self.title)?;
                rt.write_all(b":")?;
                lent.run(rt, self)?;
                rt.write_all(self.tail)?;
                rt.write_all(b"\n")
            }
            Shown::Refusal | Shown::Nothing => lent.run(rt, self),
        }
    }
}

impl Shown {
    // Shows what a call comes to, and the records behind it.
    pub fn answer<T: Drop, D: fmt::Display + Drop>(
        self,
        rt: &impl Print,
        called: Result<T, Refusal>,
        records: D,
    ) -> io::Result<()> {
        let refusal = refusal_in(called);
        match self {
            Shown::Whole => print!(rt; " {refusal}{records}"),
            Shown::Answer | Shown::Refusal => print!(rt; " {refusal}"),
            Shown::Nothing => Ok(()),
        }
    }
}

// Shows that a row cannot be read.
pub fn unread(rt: &impl Print) -> io::Result<()> {
    rt.write_all(b" ?")
}
