// The calls of rows, and the records that they show.
use crate::measure::{Letter, Measuring};
use crate::print::{Bytes, Directions, Ends, Named, Pairs, ProbeNumbers, WearNumbers, Wears};
use crate::read::{
    MOST, TitleWord, from_zero, low_bits, low_byte, numbers, sizes, stored, word_and_fields,
};
use crate::rows::{Row, Shown, unread};
use crate::stores::Lent;
use area::{EMPIRICALS, MEANS, OFFSETS, PROBES, TOOLS};
use calibrating::calibrate;
use floats::float_of_bits;
use package::arguments::{Calibration, Reading, Report};
use package::ways::Way;
use probes::place_on;
use std::{array, io};

// What a byte of a buffer is before a save, and the greatest length of a buffer.
const FILL: u8 = 0x5A;

const BUFFER: usize = 100;

// A call as its row writes it: its word and its numbers.
#[derive(Clone, Copy)]
struct Call<'a> {
    word: &'a [u8],
    given: &'a [i64],
}

impl Lent {
    // Makes the call of a row, by its word.
    pub fn run(&mut self, rt: &impl Print, row: Row<'_>) -> io::Result<()> {
        let (word, fields) = word_and_fields(row.call);
        let mut room = [0; MOST];
        let Some(given) = numbers(fields, &mut room) else {
            return unread(rt);
        };
        match (word, given) {
            (b"T", _) => Measuring::by(Letter::T, given).show(rt, self, row),
            (b"Z", _) => Measuring::by(Letter::Z, given).show(rt, self, row),
            (b"load", _) => {
                let byte = |i: usize| low_byte(given.get(i).copied().unwrap_or(0));
                let block = array::from_fn::<u8, MOST, _>(byte);
                self.load(rt, row.shown, &block[..given.len()])
            }
            (b"C", &[probe, axis, direction, setpoint, raw, tzl, tsa]) => {
                let a = Calibration {
                    probe,
                    axis,
                    direction,
                    setpoint,
                    raw,
                    tzl,
                    tsa,
                };
                self.calibration(rt, row, a)
            }
            _ => self.set(rt, row.shown, Call { word, given }),
        }
    }

    // A record or a number of the area is set.
    fn set(&mut self, rt: &impl Print, shown: Shown, call: Call<'_>) -> io::Result<()> {
        let Call { word, given } = call;
        match (word, given) {
            (b"E", &[ev, value]) => {
                let called = empirical_setting::set_empirical(&mut self.area, ev, value);
                shown.answer(rt, called, Named("EV", self.record(EMPIRICALS, ev)))
            }
            (b"W", &[tool, radius, length]) => {
                let called = wear_setting::set_wear(&mut self.area, tool, radius, length);
                shown.answer(rt, called, WearNumbers(self.record(TOOLS, tool)))
            }
            (b"O", &[offset, v1, v2, v3]) => {
                let called = zero_setting::set_offset(&mut self.area, offset, v1, v2, v3);
                shown.answer(rt, called, Named("axes", self.record(OFFSETS, offset)))
            }
            (b"fresh", []) => shown.answer(rt, fresh_area::fresh(&mut self.area), ""),
            (b"number", &[index, value]) => match self.area.get_mut(from_zero(index)) {
                Some(number) => {
                    *number = stored(value);
                    Ok(())
                }
                None => unread(rt),
            },
            _ => self.look(rt, shown, call),
        }
    }

    // Nothing is changed: a call that only reads, or records, which are shown whatever the mark.
    fn look(&self, rt: &impl Print, shown: Shown, call: Call<'_>) -> io::Result<()> {
        let Call { word, given } = call;
        match (word, given) {
            (b"status", &[probe]) => {
                let read = status_reading::probe_status(&self.area, probe);
                shown.answer(rt, read, Directions(read.into()))
            }
            (b"save", &[length]) => self.save(rt, shown, from_zero(length)),
            (b"offset", &[n]) => rt.print(Named("axes", self.record(OFFSETS, n))),
            (b"probe", &[n]) => rt.print(ProbeNumbers(self.record(PROBES, n))),
            (b"memory", []) => {
                let ev = Some(self.section(EMPIRICALS));
                let mv = Some(self.section(MEANS));
                print!(rt; "{}{}", Named("EV", ev), Named("MV", mv))
            }
            (b"wears", []) => rt.print(Wears(self.section(TOOLS))),
            (b"pairs", []) => rt.print(Pairs(self.section(TOOLS))),
            _ => unread(rt),
        }
    }

    fn calibration(
        &mut self,
        rt: &impl Print,
        row: Row<'_>,
        a: Calibration<i64>,
    ) -> io::Result<()> {
        let called = match report_of(row.title) {
            Some(report) => calibrate(&mut self.area, a.with_raw(Reading::Reported(report))),
            None => calibrate(&mut self.area, a),
        };
        let Some(trigger) = self.trigger(a) else {
            return row.shown.answer(rt, called, "");
        };
        let status = Directions(status_reading::probe_status(&self.area, a.probe).into());
        row.shown
            .answer(rt, called, format_args!(" trigger {trigger}{status}"))
    }

    // The trigger that a calibration is of.
    fn trigger(&self, a: Calibration<i64>) -> Option<i32> {
        let way = Way::named(a.axis, a.direction).ok()?;
        let probe = self.record(PROBES, a.probe)?;
        probe.get(place_on(way) - 1).copied()
    }

    fn load(&mut self, rt: &impl Print, shown: Shown, block: &[u8]) -> io::Result<()> {
        let called = memory::load(&mut self.area, block);
        let ev = Ends("EV", self.section(EMPIRICALS));
        let mv = Ends("MV", self.section(MEANS));
        shown.answer(rt, called, format_args!("{ev}{mv}"))
    }

    fn save(&self, rt: &impl Print, shown: Shown, length: usize) -> io::Result<()> {
        let mut buffer = [FILL; BUFFER];
        let Some(lent) = buffer.get_mut(..length) else {
            return unread(rt);
        };
        let called = memory::save(&self.area, lent);
        shown.answer(rt, called, format_args!(" bytes{}", Bytes(lent)))
    }
}

// A title report,x,y,z has the bits of the floats that take the place of the raw.
fn report_of(title: &[u8]) -> Option<Report> {
    let (word, fields) = word_and_fields(title);
    if TitleWord::of(word) != Some(TitleWord::Report) {
        return None;
    }
    let [x, y, z] = sizes::<3>(fields);
    Some(Report {
        x: float_of_bits(low_bits(x)),
        y: float_of_bits(low_bits(y)),
        z: float_of_bits(low_bits(z)),
    })
}
