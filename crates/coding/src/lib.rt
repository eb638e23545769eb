// The coding: bit sections, byte sections and difference lists over lent slices. It knows nothing of trees.
#![tactic(auto)]

pub mod bits;
pub mod lanes;
pub mod list;
pub mod refusal;
pub mod section;
pub mod word;
mod write;

ghost use Rattle.std.specs.Prelude.{◌≡◌};
ghost use Rattle.coding.specs.Answers.{as_amount, as_entry};
ghost use Rattle.coding.specs.Calls.{Packs, LooksUp, CountsOnes};

use list::Coded;
use refusal::Refusal;

// The most numbers that a list may have, and the least number that three bytes do not hold.
const LIST_LIMIT: usize = 1398100;

const NUMBER_LIMIT: u32 = 16777216;

// What C gets of a call that writes or counts: the number of a refusal, or 0, and beside it the bytes written or the ones counted, or with 6 the room needed.
#[repr(C)]
#[derive(Clone, Copy, Debug, PartialEq, Eq)]
pub struct Amount {
    pub refusal: u32,
    pub amount: usize,
}

impl From<Result<usize, Refusal>> for Amount {
    ghost from_gives = { λ r a. a ≡ as_amount r };

    fn from(answer: Result<usize, Refusal>) -> Amount {
        match answer {
            Ok(amount) => Amount { refusal: 0, amount },
            Err(why) => Amount {
                refusal: why.number(),
                amount: match why {
                    Refusal::Room(need) => need,
                    _ => 0,
                },
            },
        }
    }
}

// What C gets of a look-up: the number of a refusal, or 0, and beside it the entry.
#[repr(C)]
#[derive(Clone, Copy, Debug, PartialEq, Eq)]
pub struct Entry {
    pub refusal: u32,
    pub number: u32,
}

impl From<Result<u32, Refusal>> for Entry {
    ghost from_gives = { λ r e. e ≡ as_entry r };

    fn from(answer: Result<u32, Refusal>) -> Entry {
        match answer {
            Ok(number) => Entry { refusal: 0, number },
            Err(why) => Entry {
                refusal: why.number(),
                number: 0,
            },
        }
    }
}

// Packs a list of numbers into `out`, and says how many bytes it took.
pub fn pack(numbers: &[u32], out: &mut [u8]) -> Result<usize, Refusal>
    ensures { Packs numbers.now out.old (as_amount result) out.new }
{
    let n = numbers.len();
    if LIST_LIMIT < n {
        return Err(Refusal::Size);
    }
    if 0 < write::count_from(numbers, NUMBER_LIMIT) {
        return Err(Refusal::Range);
    }
    let n2 = write::count_from(numbers, 256);
    let n3 = write::count_from(numbers, 65536);
    let need = 20 + n + n.div_ceil(8) + n2 + n2.div_ceil(8) + n3;
    if out.len() < need {
        return Err(Refusal::Room(need));
    }
    write::list(out, numbers, n as u32, n2 as u32, n3 as u32);
    Ok(need)
}

// The entry `i` of a packed list, counted from 0.
pub fn look_up(s: &[u8], i: usize) -> Result<u32, Refusal>
    ensures { LooksUp s.now i (as_entry result) }
{
    let Some((list, rest)) = Coded::read(s) else {
        return Err(Refusal::Form);
    };
    let n = list.len();
    if !rest.is_empty() || LIST_LIMIT < n {
        return Err(Refusal::Form);
    }
    if n <= i {
        return Err(Refusal::Entry);
    }
    Ok(list.entry(i))
}

// The ones before the place `z` of a section of bits; beyond its last bit, all of them.
pub fn count_ones(s: &[u8], z: usize) -> Result<usize, Refusal>
    ensures { CountsOnes s.now z (as_amount result) }
{
    let Some((bits, rest)) = section::bits(s) else {
        return Err(Refusal::Form);
    };
    if !rest.is_empty() {
        return Err(Refusal::Form);
    }
    Ok(bits.ones_before(z))
}
