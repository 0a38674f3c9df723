// Rows that measure.
ghost use Rattle.std.specs.Prelude.{◌≡◌, pos, slice_index_or};

use crate::print::{Named, Places, Plain};
use crate::read::{TitleWord, low_bits, sizes, word_and_fields};
use crate::rows::{Row, Shown};
use crate::stores::Lent;
use area::{MEANS, OFFSETS, TOOLS};
use floats::float_of_bits;
use lent_measuring::{lent_tool, lent_tool_readings, lent_zero, lent_zero_readings, measure};
use package::found::Evaluation;
use package::refusals::Refusal;
use std::{array, fmt, io};

// The numbers of a result array, those of the manual's first array, and the greatest length of an array here.
const RESULTS: usize = 42;

const OVR: usize = 32;

const MOST_RESULTS: usize = 50;

// The deviation D and the correction c in it.
const DEVIATION: usize = 16;

const CORRECTION: usize = 20;

// Fields of both letters, counted from 0: the tool or zero offset, and the mean value.
const RECORD: usize = 11;

const MV: usize = 13;

// T measures with tool offset, Z with zero offset.
#[derive(Clone, Copy, Debug, PartialEq, Eq)]
pub enum Letter {
    T,
    Z,
}

// A row that measures: its letter and its fields.
#[derive(Clone, Copy)]
pub struct Measuring<'a> {
    letter: Letter,
    given: &'a [i64],
}

// What a measurement left: the records that it may change, and the array.
#[derive(Clone, Copy)]
struct Left<'a> {
    by: Measuring<'a>,
    lent: &'a Lent,
    results: &'a [i32; RESULTS],
}

// The same, of which only what was done in a series is shown.
#[derive(Clone, Copy)]
struct Part<'a>(Left<'a>);

impl<'a> Measuring<'a> {
    pub fn by(letter: Letter, given: &'a [i64]) -> Measuring<'a> {
        Measuring { letter, given }
    }

    // Measures, and shows what was left as the title's word asks.
    pub fn show(self, rt: &impl Print, lent: &mut Lent, row: Row<'_>) -> io::Result<()> {
        let (word, fields) = word_and_fields(row.title);
        let mut results = array::from_fn::<i32, RESULTS, _>(|i| 1001 + i as i32);
        match TitleWord::of(word) {
            Some(TitleWord::Room) => self.in_room(rt, lent, row.shown, fields),
            Some(TitleWord::Part) => {
                let measured = self.measure(lent, &mut results, 0);
                let left = self.left(lent, &results);
                row.shown.measured(rt, measured, Part(left))
            }
            Some(TitleWord::Reports) => {
                let measured = self.reported(lent, fields, &mut results);
                row.shown.measured(rt, measured, self.left(lent, &results))
            }
            Some(TitleWord::Report) | None => {
                let measured = self.measure(lent, &mut results, 0);
                row.shown.measured(rt, measured, self.left(lent, &results))
            }
        }
    }

    // A title room,length,place has an array of at most 50 numbers lent, and the place in it. A longer one is lent as 50, and shows none of them.
    fn in_room(
        self,
        rt: &impl Print,
        lent: &mut Lent,
        shown: Shown,
        fields: &[u8],
    ) -> io::Result<()> {
        let [length, place] = sizes::<2>(fields);
        let mut array = array::from_fn::<i32, MOST_RESULTS, _>(|i| 1001 + i as i32);
        let measured = self.measure(lent, &mut array[..length.min(MOST_RESULTS)], place);
        let left = Plain(array.get(..length).unwrap_or(&[]));
        shown.measured(rt, measured, format_args!(" array{left}"))
    }

    // A title reports,marks,.. says which raws are reports, and the bits of X, Y and Z of each.
    fn reported(
        self,
        lent: &mut Lent,
        fields: &[u8],
        array: &mut [i32],
    ) -> Result<Evaluation, Refusal> {
        let reports = sizes::<13>(fields);
        let floats = array::from_fn::<f32, 12, _>(|i| float_of_bits(low_bits(reports[i + 1])));
        self.measure_readings(lent, &floats, low_bits(reports[0]), array)
    }

    // The letter is matched here and below, since what T and Z are lent is of two types. An array and the place in it, as C lends them; they stand beside the area,
    // since a row of a room has an array of its own length.
    fn measure(
        self,
        lent: &mut Lent,
        array: &mut [i32],
        place: usize,
    ) -> Result<Evaluation, Refusal> {
        match self.letter {
            Letter::T => measure(&mut lent.area, lent_tool(self.given), array, place),
            Letter::Z => measure(&mut lent.area, lent_zero(self.given), array, place),
        }
    }

    fn measure_readings(
        self,
        lent: &mut Lent,
        floats: &[f32],
        marks: u32,
        array: &mut [i32],
    ) -> Result<Evaluation, Refusal> {
        match self.letter {
            Letter::T => {
                let m = lent_tool_readings(self.given, floats, marks);
                measure(&mut lent.area, m, array, 0)
            }
            Letter::Z => {
                let m = lent_zero_readings(self.given, floats, marks);
                measure(&mut lent.area, m, array, 0)
            }
        }
    }

    fn left(self, lent: &'a Lent, results: &'a [i32; RESULTS]) -> Left<'a> {
        Left {
            by: self,
            lent,
            results,
        }
    }

    // A field of the row, 0 where there is none.
    fn field(self, i: usize) -> i64
        ensures { result ≡ slice_index_or self.entry.given.now i (pos 0) }
    {
        self.given.get(i).copied().unwrap_or(0)
    }
}

impl Shown {
    // Shows what a measurement answers; its branch and verdict are 0 where it is refused.
    fn measured<D: fmt::Display + Drop>(
        self,
        rt: &impl Print,
        measured: Result<Evaluation, Refusal>,
        left: D,
    ) -> io::Result<()> {
        let e = measured.unwrap_or_default();
        self.answer(
            rt,
            measured,
            format_args!(" {} {}{left}", e.branch, e.verdict),
        )
    }
}

impl fmt::Display for Left<'_> {
    fn fmt<W: fmt::Write>(&self, f: &mut fmt::Formatter<W>) -> fmt::Result {
        let record = self.by.field(RECORD);
        match self.by.letter {
            Letter::T => {
                let mv = Named("MV", self.lent.record(MEANS, self.by.field(MV)));
                let wear = Named("wear", self.lent.record(TOOLS, record));
                write!(f, "{mv}{wear}")?;
            }
            Letter::Z => write!(f, "{}", Named("axes", self.lent.record(OFFSETS, record)))?,
        }
        let results = self.results;
        let (ovr, ovi) = results.split_at(OVR);
        write!(f, " OVR{} OVI{}", Places(ovr), Places(ovi))
    }
}

impl fmt::Display for Part<'_> {
    fn fmt<W: fmt::Write>(&self, f: &mut fmt::Formatter<W>) -> fmt::Result {
        let Part(left) = *self;
        let d = left.results[DEVIATION];
        let c = left.results[CORRECTION];
        let mv = Named("MV", left.lent.record(MEANS, left.by.field(MV)));
        let wears = left.lent.record(TOOLS, left.by.field(RECORD));
        let radius = Named("radius", wears.and_then(|w| w.get(..1)));
        write!(f, " D {d}{mv} c {c}{radius}")
    }
}
