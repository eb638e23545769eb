// The boundary to C: the calls under their C names. A slice passes as a pointer and a count.
#![tactic(auto)]

ghost use Rattle.coding.specs.Calls.{Packs, LooksUp, CountsOnes};

use coding::{Amount, Entry};

#[unsafe(no_mangle)]
pub extern "C" fn dg_pack(numbers: &[u32], out: &mut [u8]) -> Amount
    ensures { Packs numbers.now out.old result out.new }
{
    coding::pack(numbers, out).into()
}

#[unsafe(no_mangle)]
pub extern "C" fn dg_lookup(list: &[u8], entry: usize) -> Entry
    ensures { LooksUp list.now entry result }
{
    coding::look_up(list, entry).into()
}

#[unsafe(no_mangle)]
pub extern "C" fn dg_ones(section: &[u8], place: usize) -> Amount
    ensures { CountsOnes section.now place result }
{
    coding::count_ones(section, place).into()
}
