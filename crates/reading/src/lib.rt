// The records of a lent area that a call reads, each by its number: area and number are no one thing, since the number is the caller's.
#![tactic(auto)]

ghost use Rattle.std.specs.Prelude.{◌≡◌, true, ◌≤◌, ◌<◌, length};
ghost use Rattle.rules.specs.Stores.{probe_number, tool_number, offset_number, probes, tools, offsets, at};
ghost use Rattle.rules.specs.Passed.{ToolNumbers, ZeroNumbers};
ghost use Rattle.rules.specs.Calls.{tool_read, zero_read};
ghost use Rattle.layout.specs.Layout.{end, named, record_of};
ghost use Rattle.area.specs.Table.{area_length, number, value_from, held};

use area::{AREA, EMPIRICALS, MEANS, OFFSETS, PROBES, TOOLS, status_from, value_from};
use layout::{Section, record_in};
use package::arguments::{ToolMeasurement, ZeroMeasurement};
use package::found::{ToolRecords, ZeroRecords};
use package::records::{Offset, Probe, Wear};

// One probe. No call of a user.
pub fn probe_at(area: &[i32; AREA], n: i64) -> Probe
    requires n_value { probe_number n ≡ true }
    ensures { result ≡ at (held area.now) probes n }
{
    let numbers = record_in(area, PROBES, n);
    Probe {
        triggers: *numbers.first_chunk().unwrap(),
        status: status_from(numbers[6]),
    }
}

// One empirical or mean value; number 0 names none, and 0 is read. It asks the same of any section, since both have theirs.
fn value_at(area: &[i32; AREA], s: Section, n: i64) -> i16
    requires s_in_bounds { end s ≤ area_length }
    requires n_value { named s n ≡ true }
    requires width_nonzero { 0 < s.width }
    ensures { result ≡ value_from (number (record_of s area.now n) 0) }
{
    value_from(record_in(area, s, n).first().copied().unwrap_or(0))
}

// One tool's wears.
fn wear_at(area: &[i32; AREA], n: i64) -> Wear
    requires n_value { tool_number n ≡ true }
    ensures { result ≡ at (held area.now) tools n }
{
    let [radius, length] = *record_in(area, TOOLS, n).as_array::<2>().unwrap();
    Wear { radius, length }
}

// One zero offset.
fn offset_at(area: &[i32; AREA], n: i64) -> Offset
    requires n_value { offset_number n ≡ true }
    ensures { result ≡ at (held area.now) offsets n }
{
    Offset {
        axes: *record_in(area, OFFSETS, n).as_array().unwrap(),
    }
}

// The records that a measurement with tool offset reads. No call of a user.
pub fn tool_records(area: &[i32; AREA], a: ToolMeasurement<i64>) -> ToolRecords
    requires tool_numbers { ToolNumbers a }
    ensures { result ≡ tool_read (held area.now) a }
{
    let probing = a.probing;
    ToolRecords {
        probe: probe_at(area, probing.probe),
        ev: value_at(area, EMPIRICALS, a.ev),
        mean: value_at(area, MEANS, a.mv),
        wear: wear_at(area, a.tool),
    }
}

// The records that a measurement with zero offset reads. No call of a user.
pub fn zero_records(area: &[i32; AREA], a: ZeroMeasurement<i64>) -> ZeroRecords
    requires zero_numbers { ZeroNumbers a }
    ensures { result ≡ zero_read (held area.now) a }
{
    let probing = a.probing;
    ZeroRecords {
        probe: probe_at(area, probing.probe),
        offset: offset_at(area, a.offset),
    }
}
