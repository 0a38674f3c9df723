// The memory block, read into the area that the caller lends and written from it. Document 01, 'Memory block'.
#![tactic(auto)]

ghost use Rattle.std.specs.Prelude.{◌≡◌, map, ◌+◌, ◌≤◌, length};
ghost use Rattle.lists.specs.Written.{written};
ghost use Rattle.package.specs.Refusals.{refusal_in};
ghost use Rattle.rules.specs.Block.{words};
ghost use Rattle.rules.specs.Stores.{means};
ghost use Rattle.rules.specs.Calls.{load};
ghost use Rattle.layout.specs.Layout.{end, records};
ghost use Rattle.area.specs.Table.{record_from};
ghost use Rattle.area.specs.Called.{unmeasured, called};
ghost use Rattle.memory.specs.Saved.{saved_as, save_called};

use area::{AREA, EMPIRICALS, MEANS, value_from};
use layout::Section;
use package::records::Memory;
use package::refusals::Refusal;
use records::{decode, save_memory};

// Writes the values of 40 bytes from a place on, which stands beside the area as it does in layout.
// An index, since an array's `map` took ten times as long, and the closure of `from_fn` needs clauses longer than the loop.
fn write_values(area: &mut [i32], at: usize, bytes: &[u8])
    requires { (at + 20 ≤ length area.old) × (length bytes.now ≡ 40) }
    ensures { area.new ≡ written area.old at (words bytes.now) }
{
    for i in 0..20 {
        let v = decode(bytes[2 * i], bytes[2 * i + 1]);
        area[at + i] = i32::from(v);
    }
}

// Replaces all empirical and mean values by those of a block of 80 bytes.
#[tactic(auto, using(area::specs::CalledLaws::call_wrong))]
pub fn load(area: &mut [i32], bytes: &[u8]) -> Result<(), Refusal>
    ensures { unmeasured (refusal_in result) area.new ≡ called area.old (load bytes.now) }
{
    let Some(whole) = area.as_mut_array::<AREA>() else {
        return Err(Refusal::WrongArea);
    };
    let Some(block) = bytes.as_array::<80>() else {
        return Err(Refusal::NoRoom);
    };
    write_values(whole, EMPIRICALS.at, &block[..40]);
    write_values(whole, MEANS.at, &block[40..]);
    Ok(())
}

// The values of a section.
// An index, as in `write_values`.
fn read_values(area: &[i32], s: Section) -> [i16; 20]
    requires { (s.width ≡ 1) × (s.count ≡ 20) × (end s ≤ length area.now) }
    ensures { result ≡ map (record_from means) (records s area.now) }
{
    let mut values = [0i16; 20];
    for i in 0..20 {
        values[i] = value_from(area[s.at + i]);
    }
    values
}

// Writes the block of all empirical and mean values to the first 80 bytes of the buffer.
#[tactic(auto, using(crate::specs::BlockCallLaws::save_wrong))]
pub fn save(area: &[i32], buffer: &mut [u8]) -> Result<(), Refusal>
    ensures { saved_as (refusal_in result) buffer.new ≡ save_called area.now buffer.old }
{
    let Some(whole) = area.as_array::<AREA>() else {
        return Err(Refusal::WrongArea);
    };
    let empirical = read_values(whole, EMPIRICALS);
    let means = read_values(whole, MEANS);
    save_memory(Memory { empirical, means }, buffer)
}
