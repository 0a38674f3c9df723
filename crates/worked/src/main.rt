// What the calls answer, row by row. Rows stand in the files of data/, each under the 64 KiB that one read takes, so a file a topic: setting and
// calibrating, measuring, series of parts, limits, what these leave, and float reports. A row gives a line, and the line that is expected is written from
// the papers.
//
// A row is a call as a job writes it, or a word and its numbers, each within i64:
//   E,ev,value: refusal EV v
//   W,tool,radius,length: refusal radius w length w
//   O,offset,v1,v2,v3: refusal axes v v v
//   C,probe,axis,direction,setpoint,raw,TZL,TSA: refusal trigger t bits b count n
//   T,<21 fields>: refusal branch verdict MV m wear radius length OVR place=v .. OVI place=v ..     the numbers of the array that are not 0
//   Z,<13 fields>: refusal branch verdict axes v v v OVR place=v .. OVI place=v ..
//   status,probe: refusal bits b count n
//   load,<bytes>: refusal EV first last MV first last
//   save,length: refusal bytes b b ..       the whole buffer in hexadecimal; each byte was 5a before the call
//   memory, wears, pairs, offset,n and probe,n: a store or a record, with no refusal, whatever the mark; wears has the tools with a wear that is
//   not 0, pairs all
//   fresh, and number,index,value, which sets a number of the area, so that it may be what no call leaves
// A call that names no record shows none. What cannot be read shows ?. Before a row, `.` shows its refusal alone, `-` nothing, `+` only the refusal,
// within a line of text. A line of text begins with `"`, and `"` alone ends it. `#` begins a remark.
//
// title|row|text shows the title for the row, and the text behind all. Two titles ask for another showing of T and Z, and two for float reports:
//   room,length,place,kind: refusal branch verdict array v v ..       an array of this length, lent at this place; its numbers were 1001, 1002, ..
//   part,number,k: refusal branch verdict D d MV m c c radius w
//   reports,marks,<12 numbers>: T and Z with readings: which raws are reports, and the bits of X, Y and Z of each raw in decimals
//   report,<3 numbers>: C with the bits of X, Y and Z in place of its raw
// A number that such a title lacks is 0, one too many is passed over.
#![tactic(auto)]

mod answers;
mod measure;
mod print;
mod read;
mod rows;
mod stores;

use file_input::read_full;
use rows::show_line;
use std::fs::File;
use std::io;
use std::rt::Files;
use stores::Lent;

// The most bytes of a file, and one more, so that a longer one is seen.
const MOST_READ: usize = 65_536;

fn main(rt: HostRuntime) -> io::Result<()> {
    file(&rt, "setup.txt")?;
    file(&rt, "measuring.txt")?;
    file(&rt, "series.txt")?;
    file(&rt, "limits.txt")?;
    file(&rt, "further.txt")?;
    file(&rt, "reports.txt")
}

// A file that is not there, that is empty or that fills the buffer shows ?, behind what was read of it.
fn file(rt: &(impl Files + Print), name: &str) -> io::Result<()> {
    let mut buffer = [0u8; MOST_READ];
    let size = match File::open(rt, name) {
        Ok(mut input) => read_full(&mut input, &mut buffer)?,
        Err(_) => 0,
    };
    let mut lent = Lent::new();
    for line in buffer[..size].split(|b| *b == b'\n') {
        show_line(rt, &mut lent, line)?;
    }
    if (size == 0) | (size == buffer.len()) {
        return println!(rt; "{name}: ?");
    }
    Ok(())
}
