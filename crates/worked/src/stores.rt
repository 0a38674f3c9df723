// The area that rows work on, and its records.
ghost use Rattle.std.specs.Prelude.{◌≡◌, ◌↔◌, ◌≤◌, ◌*◌, pos, ◌≤ℤ◌, take, drop, IsSome, IfSome};
ghost use Rattle.layout.specs.Layout.{end, record_of};
ghost use Rattle.area.specs.Table.{area_length};

use area::AREA;
use layout::Section;

// What each number of an area is before the first row.
const UNSET: i32 = 7;

// The area that is lent to the calls of a file's rows.
#[derive(Drop)]
pub struct Lent {
    pub area: [i32; AREA],
}

impl Lent {
    pub fn new() -> Lent {
        Lent {
            area: [UNSET; AREA],
        }
    }

    // The record of a section with this number, counted from 1. No call of a user.
    pub fn record(&self, s: Section, n: i64) -> Option<&[i32]>
        requires { end s ≤ area_length }
        ensures there { IsSome result ↔ ((pos 1 ≤ℤ n) × (n ≤ℤ pos s.count)) }
        ensures numbers { IfSome result (λ r. r.now ≡ record_of s self.now.area n) }
    {
        let i = usize::try_from(n).ok()?.checked_sub(1)?;
        if s.count <= i {
            return None;
        }
        let at = s.at + s.width * i;
        Some(&self.area[at..at + s.width])
    }

    // All numbers of a section. No call of a user.
    pub fn section(&self, s: Section) -> &[i32]
        requires { end s ≤ area_length }
        ensures { result.now ≡ take (s.width * s.count) (drop s.at self.now.area) }
    {
        &self.area[s.at..s.at + s.width * s.count]
    }
}
