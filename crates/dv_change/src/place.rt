//! What a position holds in memory.

ghost use Rattle.std.specs.Prelude.{◌≡◌, [], ◌∷◌, IfOk, IfSome};
ghost use Rattle.dv_value.specs.Tree.{string};
ghost use Rattle.dv_order.specs.Key.{value};
ghost use Rattle.dv_order.specs.LentKeys.{lent_key};
ghost use Rattle.dv_change.specs.declared.position.Part.TheVariants.{Up};
ghost use Rattle.dv_change.specs.Inner.Lents.{lent_parts};
ghost use Rattle.dv_change.specs.Inner.PartCodes.{first_high, first_low, first_top};
ghost use Rattle.dv_change.specs.Inner.Places.{IsFirstCode, IsValid, parts_of};
ghost use Rattle.dv_change.specs.Positions.{pos_order};

use crate::head::Head;
use crate::lent::{Lent, Parts};
use crate::position::Part;
use dv_order::{LentKey, padded, text_in};
use dv_value::{Document, NoMemory};
use std::alloc::Global;
use std::cmp::Ordering;
use std::rc::Rc;

/// The parts of a position.
#[derive(Debug, Drop)]
pub(crate) enum Place {
    /// One part, determined by its code.
    One {
        top: u8,
        low: u32,
        high: u64,
    },
    /// Two parts, determined by their codes. The second number of the first code is 0, and `low` is that of the second code.
    Two {
        top: u8,
        next_top: u8,
        low: u32,
        high: u64,
        next: u64,
    },
    /// One ascending text, followed by zeros.
    Short {
        len: u8,
        bytes: [u8; 22],
    },
    /// The same, of up to 24 bytes: as many as an ObjectId's hexadecimal digits.
    Middle {
        len: u8,
        bytes: Rc<[u8; 24]>,
    },
    /// The same, of up to 40 bytes.
    Long {
        len: u8,
        bytes: Rc<[u8; 40]>,
    },
    /// One ascending document.
    Doc {
        document: Document,
    },
    /// The code of the first part, zeros if there is none, and all parts.
    Listed {
        top: u8,
        low: u32,
        high: u64,
        parts: Rc<Vec<Part>>,
    },
}

impl Place {
    /// The place of these parts. Fails when memory runs out.
    pub(crate) fn of(alloc: Global, parts: Vec<Part>) -> Result<Self, NoMemory>
        ensures parts { IfOk result (λ place. parts_of place ≡ parts.items) }
        ensures valid { IfOk result IsValid }
    {
        if let Some(place) = unlisted(alloc, parts.as_slice())? {
            return Ok(place);
        }
        let head = Head::of_first(parts.as_slice());
        Ok(Place::Listed {
            top: head.top,
            low: head.low,
            high: head.high,
            parts: Rc::new(alloc, parts)?,
        })
    }

    /// The place of one part, if it needs no list: an ascending text that isn't long, an ascending document, or a part that is
    /// determined by its code. Fails when memory runs out.
    pub(crate) fn alone(alloc: Global, part: &Part) -> Result<Option<Self>, NoMemory>
        ensures parts { IfOk result (λ found. IfSome found (λ place. parts_of place ≡ part.now ∷ [])) }
        ensures valid { IfOk result (λ found. IfSome found IsValid) }
    {
        match lent_of(part) {
            Some(LentKey::Text(text)) => of_text(alloc, text),
            Some(LentKey::Document(document)) => Ok(Some(Place::Doc {
                document: document.try_clone()?,
            })),
            None => Ok(one(part)),
        }
    }

    /// The place with this part before its own one, if both are determined by their codes and the second number of the new part's
    /// code is 0. Takes no memory.
    pub(crate) fn behind_part(&self, part: &Part) -> Option<Self>
        ensures parts { IfSome result (λ place. parts_of place ≡ part.now ∷ parts_of self.now) }
        ensures valid { IfSome result IsValid }
    {
        let Place::One { top, low, high } = self else {
            return None;
        };
        let own = Part::of_code(*top, *high, *low);
        let place = two(part, &own);
        drop(own);
        place
    }

    /// How many parts there are.
    pub(crate) fn len(&self) -> usize {
        match self {
            Place::Two { .. } => 2,
            Place::Listed { parts, .. } => parts.len(),
            _ => 1,
        }
    }

    /// A copy that shares its memory. Fails when memory runs out.
    pub(crate) fn try_clone(&self) -> Result<Self, NoMemory>
        requires { IsValid self.now }
        ensures parts { IfOk result (λ copy. parts_of copy ≡ parts_of self.now) }
        ensures valid { IfOk result IsValid }
    {
        Ok(match self {
            Place::One { top, low, high } => Place::One {
                top: *top,
                low: *low,
                high: *high,
            },
            Place::Two {
                top,
                next_top,
                low,
                high,
                next,
            } => Place::Two {
                top: *top,
                next_top: *next_top,
                low: *low,
                high: *high,
                next: *next,
            },
            Place::Short { len, bytes } => Place::Short {
                len: *len,
                bytes: *bytes,
            },
            Place::Middle { len, bytes } => Place::Middle {
                len: *len,
                bytes: bytes.clone()?,
            },
            Place::Long { len, bytes } => Place::Long {
                len: *len,
                bytes: bytes.clone()?,
            },
            Place::Doc { document } => Place::Doc {
                document: document.try_clone()?,
            },
            Place::Listed {
                top,
                low,
                high,
                parts,
            } => Place::Listed {
                top: *top,
                low: *low,
                high: *high,
                parts: parts.clone()?,
            },
        })
    }

    /// The parts. Takes no memory.
    pub(crate) fn lent(&self) -> Lent<'_>
        requires { IsValid self.now }
        ensures { lent_parts result ≡ parts_of self.now }
    {
        match self {
            Place::One { top, low, high } => Lent::Together(Parts::One([Part::of_code(
                *top, *high, *low,
            )])),
            Place::Two {
                top,
                next_top,
                low,
                high,
                next,
            } => Lent::Together(Parts::Two([
                Part::of_code(*top, *high, 0),
                Part::of_code(*next_top, *next, *low),
            ])),
            Place::Short { len, bytes } => Lent::Alone(LentKey::Text(text_in(
                bytes.as_slice(),
                *len,
            ))),
            Place::Middle { len, bytes } => Lent::Alone(LentKey::Text(text_in(
                bytes.as_slice(),
                *len,
            ))),
            Place::Long { len, bytes } => Lent::Alone(LentKey::Text(text_in(
                bytes.as_slice(),
                *len,
            ))),
            Place::Doc { document } => Lent::Alone(LentKey::Document(document)),
            Place::Listed { parts, .. } => Lent::Together(Parts::Listed(parts.as_slice())),
        }
    }

    /// The order of the positions of two places. If both store the code of their first part, and these codes differ, they decide.
    /// Takes no memory.
    pub(crate) fn order(&self, other: &Place) -> Ordering
        requires own { IsValid self.now }
        requires other { IsValid other.now }
        ensures { result ≡ pos_order (parts_of self.now) (parts_of other.now) }
    {
        let Some(a) = self.head() else {
            return self.order_by_parts(other);
        };
        let Some(b) = other.head() else {
            return self.order_by_parts(other);
        };
        let heads = a
            .top
            .cmp(&b.top)
            .then(a.high.cmp(&b.high))
            .then(a.low.cmp(&b.low));
        if heads.is_ne() {
            return heads;
        }
        self.order_behind(other)
    }

    /// The code of the first part, zeros if there is none; `None` if the place stores no code.
    fn head(&self) -> Option<Head>
        requires { IsValid self.now }
        ensures { IfSome result (λ head. IsFirstCode (parts_of self.now) head.top head.high head.low) }
    {
        match self {
            Place::One { top, low, high } | Place::Listed { top, low, high, .. } => Some(Head {
                top: *top,
                high: *high,
                low: *low,
            }),
            Place::Two { top, high, .. } => Some(Head {
                top: *top,
                high: *high,
                low: 0,
            }),
            _ => None,
        }
    }

    /// The order of the positions of two places whose first parts have the same code. Takes no memory.
    fn order_behind(&self, other: &Place) -> Ordering
        requires own { IsValid self.now }
        requires other { IsValid other.now }
        requires top { first_top (parts_of self.now) ≡ first_top (parts_of other.now) }
        requires high { first_high (parts_of self.now) ≡ first_high (parts_of other.now) }
        requires low { first_low (parts_of self.now) ≡ first_low (parts_of other.now) }
        ensures { result ≡ pos_order (parts_of self.now) (parts_of other.now) }
    {
        match (self, other) {
            (Place::One { .. }, Place::One { .. }) => Ordering::Equal,
            (Place::One { .. }, Place::Two { .. }) => Ordering::Less,
            (Place::Two { .. }, Place::One { .. }) => Ordering::Greater,
            (
                Place::Two {
                    next_top: a_top,
                    low: a_low,
                    next: a_high,
                    ..
                },
                Place::Two {
                    next_top: b_top,
                    low: b_low,
                    next: b_high,
                    ..
                },
            ) => a_top
                .cmp(b_top)
                .then(a_high.cmp(b_high))
                .then(a_low.cmp(b_low)),
            _ => self.order_by_parts(other),
        }
    }

    /// The order of the positions of two places by all their parts, whatever they are. Takes no memory.
    #[inline(never)]
    fn order_by_parts(&self, other: &Place) -> Ordering
        requires own { IsValid self.now }
        requires other { IsValid other.now }
        ensures { result ≡ pos_order (parts_of self.now) (parts_of other.now) }
    {
        let own = self.lent();
        let others = other.lent();
        own.order(&others)
    }
}

/// The place of the parts, if it needs no list of them. Fails when memory runs out.
fn unlisted(alloc: Global, parts: &[Part]) -> Result<Option<Place>, NoMemory>
    ensures parts { IfOk result (λ found. IfSome found (λ place. parts_of place ≡ parts.now)) }
    ensures valid { IfOk result (λ found. IfSome found IsValid) }
{
    match parts {
        [part] => Place::alone(alloc, part),
        [part, next] => Ok(two(part, next)),
        _ => Ok(None),
    }
}

/// The ascending key of the part, borrowed, if it is the key of a text or of a document.
fn lent_of(part: &Part) -> Option<LentKey<'_>>
    ensures { IfSome result (λ key. Up (lent_key key) ≡ part.now) }
{
    match part {
        Part::Up(key) => key.lent(),
        Part::Down(_) | Part::At(_) => None,
    }
}

/// The place of one part, if it is determined by its code.
fn one(part: &Part) -> Option<Place>
    ensures parts { IfSome result (λ place. parts_of place ≡ part.now ∷ []) }
    ensures valid { IfSome result IsValid }
{
    let code = part.code();
    if !code.is_exact {
        return None;
    }
    Some(Place::One {
        top: code.top,
        low: code.low,
        high: code.high,
    })
}

/// The place of two parts, if they are determined by their codes and the second number of the first code is 0.
fn two(part: &Part, next: &Part) -> Option<Place>
    ensures parts { IfSome result (λ place. parts_of place ≡ part.now ∷ next.now ∷ []) }
    ensures valid { IfSome result IsValid }
{
    let code = part.code();
    let next = next.code();
    if !code.is_exact || !next.is_exact || code.low != 0 {
        return None;
    }
    Some(Place::Two {
        top: code.top,
        next_top: next.top,
        low: next.low,
        high: code.high,
        next: next.high,
    })
}

/// The place of an ascending text, if it has at most 40 bytes. Fails when memory runs out.
fn of_text(alloc: Global, text: &str) -> Result<Option<Place>, NoMemory>
    ensures parts { IfOk result (λ found. IfSome found (λ place. parts_of place ≡ Up (value (string text.now)) ∷ [])) }
    ensures valid { IfOk result (λ found. IfSome found IsValid) }
{
    let text = text.as_bytes();
    if text.len() > 40 {
        return Ok(None);
    }
    let len = text.len() as u8;
    if let Some(bytes) = padded::<22>(text) {
        return Ok(Some(Place::Short { len, bytes }));
    }
    if let Some(bytes) = padded::<24>(text) {
        let bytes = Rc::new(alloc, bytes)?;
        return Ok(Some(Place::Middle { len, bytes }));
    }
    if let Some(bytes) = padded::<40>(text) {
        let bytes = Rc::new(alloc, bytes)?;
        return Ok(Some(Place::Long { len, bytes }));
    }
    Ok(None)
}
