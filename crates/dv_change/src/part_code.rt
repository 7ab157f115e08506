//! Codes of parts: three numbers, which order two parts if they differ.

ghost use Rattle.std.specs.Prelude.{◌≡◌, true};
ghost use Rattle.dv_change.specs.Inner.PartCodes.{part_high, part_low, part_of_code, part_top};
ghost use Rattle.dv_change.specs.declared.position.Part.TheVariants.{Up, Down};

use crate::position::Part;
use dv_order::Key;

/// What a part is compared by first.
#[derive(Clone, Copy, Debug, Drop)]
pub(crate) struct PartCode {
    /// The rank of the part's kind, and within it of its key's class.
    pub top: u8,
    /// Never decreases as the part grows within its kind and class.
    pub high: u64,
    /// Never decreases as the part grows while `high` stays the same.
    pub low: u32,
    /// Whether these numbers determine the part.
    pub is_exact: bool,
}

impl Part {
    /// Its code. Takes no memory.
    pub(crate) fn code(&self) -> PartCode
        ensures top { result.top ≡ part_top self.now }
        ensures high { result.high ≡ part_high self.now }
        ensures low { result.low ≡ part_low self.now }
        ensures exact { result.is_exact ≡ true → part_of_code result.top result.high result.low ≡ self.now }
    {
        match self {
            Part::Up(key) => up_code(key),
            Part::Down(key) => down_code(key),
            Part::At(number) => PartCode {
                top: 32,
                high: *number,
                low: 0,
                is_exact: true,
            },
        }
    }

    /// The part that a code determines. Takes no memory.
    pub(crate) fn of_code(top: u8, high: u64, low: u32) -> Self
        ensures { result ≡ part_of_code top high low }
    {
        if top < 16 {
            Part::Up(Key::of_code(top.saturating_sub(1), high, low))
        } else if top < 32 {
            Part::Down(Key::of_code(30_u8.saturating_sub(top), u64::MAX - high, 0))
        } else {
            Part::At(high)
        }
    }
}

/// The code of the part with this ascending key.
#[tactic(auto, using(crate::specs::Inner::PartCodes::key_class_within))]
fn up_code(key: &Key) -> PartCode
    ensures top { result.top ≡ part_top (Up key.now) }
    ensures high { result.high ≡ part_high (Up key.now) }
    ensures low { result.low ≡ part_low (Up key.now) }
    ensures exact { result.is_exact ≡ true → part_of_code result.top result.high result.low ≡ Up key.now }
{
    let code = key.code();
    PartCode {
        top: code.class + 1,
        high: code.high,
        low: code.low,
        is_exact: code.is_exact,
    }
}

/// The code of the part with this descending key. It can determine only a key whose code has 0 as its second number.
#[tactic(auto, using(crate::specs::Inner::PartCodes::key_class_within))]
fn down_code(key: &Key) -> PartCode
    ensures top { result.top ≡ part_top (Down key.now) }
    ensures high { result.high ≡ part_high (Down key.now) }
    ensures low { result.low ≡ part_low (Down key.now) }
    ensures exact { result.is_exact ≡ true → part_of_code result.top result.high result.low ≡ Down key.now }
{
    let code = key.code();
    PartCode {
        top: 30 - code.class,
        high: u64::MAX - code.high,
        low: 0,
        is_exact: code.is_exact && code.low == 0,
    }
}
