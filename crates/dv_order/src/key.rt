//! Keys, by which a sorted index finds values.

ghost use Rattle.std.specs.Prelude.{◌≡◌, true, IfOk, IfSome, is_some, refl};
ghost use Rattle.std.specs.BTreeMap.{get_by, is_at};
ghost use Rattle.std.specs.Map.{set_value};
ghost use Rattle.std.specs.Cmp.{eq_by_cmp_equiv, partial_equiv_from_equiv, partial_order_from_total};
ghost use Rattle.std.specs.Ordering.{as_partial_cmp, eq_by_cmp};
ghost use Rattle.dv_value.specs.View.{tree};
ghost use Rattle.dv_order.specs.Order.{canon};
ghost use Rattle.dv_order.specs.Key.{first_value, key_at, key_class, key_order, no_element, value as key_of_tree};
ghost use Rattle.dv_order.specs.Codes.{key_high, key_low, key_of_code};
ghost use Rattle.dv_order.specs.Inner.KeyLaws.{key_order_total};
ghost use Rattle.dv_order.specs.Inner.Sources.{shown_key};
ghost use Rattle.dv_order.specs.LentKeys.{lent_key};
ghost use Rattle.dv_order.specs.OwnKeys.{IsOwn};
ghost use Rattle.dv_order.specs.Source.{source_value};

use crate::code::KeyCode;
use crate::lent::LentKey;
use crate::shown::Shown;
use crate::small::Small;
use crate::source::KeySource;
use dv_value::{Document, NoMemory, Value};
use std::alloc::Global;
use std::cmp::Ordering;
use std::collections::BTreeMap;
use std::marker::Model;
use std::mem::size_of;

/// The key of a value, or one that no value has. Keys are ordered as `compare` orders their values, and are equal exactly if these
/// differ at most in the width of integers. The key that no value has comes between those of MinKey and null.
#[derive(Debug, Drop)]
pub struct Key {
    source: KeySource,
}

/// Three words, in which most keys are; copies share what isn't.
const _: () = prove!(size_of::<Key>() == 24);

impl Model for Key {
    ghost use Rattle.dv_order.specs.Key.{KeyTree, key_at};
    ghost use Rattle.dv_order.specs.Inner.Key.{coded_key};
    ghost use Rattle.dv_order.specs.Inner.Sources.{IsSound};
    ghost use Rattle.dv_order.specs.Source.{source_value};

    ghost Value = { KeyTree };

    ghost coded = { coded_key };

    ghost view = { λ k. key_at (source_value k.source) };

    ghost invariant = { λ k. IsSound k.source };
}

/// The key of the value, which holds a copy of it; copies of the key share what isn't in its 24 bytes. Fails with `NoMemory` when
/// memory runs out.
pub fn key_of(value: &Value) -> Result<Key, NoMemory>
    ensures { IfOk result (λ key. key ≡ key_of_tree (canon (tree value.now))) }
{
    Ok(Key {
        source: KeySource::of(value)?,
    })
}

impl Key {
    /// The key that no value has. Takes no memory.
    pub fn no_element() -> Self
        ensures { result ≡ no_element }
    {
        Key {
            source: KeySource::NoElement,
        }
    }

    /// The key that is lent, of its own. Fails when memory runs out.
    pub(crate) fn of_lent(alloc: Global, key: &LentKey) -> Result<Self, NoMemory>
        ensures { IfOk result (λ own. own ≡ lent_key key.now) }
    {
        let source = match key {
            LentKey::Text(text) => KeySource::of_text(alloc, text)?,
            LentKey::Document(document) => KeySource::Document(document.try_clone()?),
        };
        Ok(Key { source })
    }

    /// The key of the document's first value, if it takes no memory.
    fn of_first(document: &Document) -> Option<Self>
        ensures { IfSome result (λ key. key ≡ key_at (first_value document.now)) }
    {
        Some(Key {
            source: KeySource::of_first(document)?,
        })
    }

    /// A copy, which shares what isn't in its 24 bytes. Fails with `NoMemory` when memory runs out.
    pub fn try_clone(&self) -> Result<Self, NoMemory>
        ensures { IfOk result (λ copy. copy ≡ self.now) }
    {
        Ok(Key {
            source: self.source.try_clone()?,
        })
    }

    /// That it is the key of some value, or the one that no value has. Does nothing.
    pub fn law_own(&self)
        ensures { IsOwn self.now }
    {
        let _source = &self.source;
    }

    /// Its code. Takes no memory.
    pub fn code(&self) -> KeyCode
        ensures class { result.class ≡ key_class self.now }
        ensures high { result.high ≡ key_high self.now }
        ensures low { result.low ≡ key_low self.now }
        ensures exact { result.is_exact ≡ true → key_of_code result.class result.high result.low ≡ self.now }
    {
        self.shown().code()
    }

    /// The key that the parts of a code give, which is the key of the code if that is exact. Takes no memory.
    pub fn of_code(class: u8, high: u64, low: u32) -> Self
        ensures { result ≡ key_of_code class high low }
    {
        match Small::of_code(class, high, low) {
            Some(small) => Key {
                source: KeySource::Small(small),
            },
            None => Key::no_element(),
        }
    }

    /// The key, lent, if it is that of a text or of a document. Takes no memory.
    pub fn lent(&self) -> Option<LentKey<'_>>
        ensures { IfSome result (λ lent. lent_key lent ≡ self.now) }
    {
        self.shown().lent()
    }

    /// How the key compares to one that is lent. Takes no memory.
    pub fn compare_to(&self, other: &LentKey) -> Ordering
        ensures { result ≡ key_order self.now (lent_key other.now) }
    {
        let other = Shown::of_lent(other);
        self.shown().order(&other)
    }

    /// The key as it is compared.
    fn shown(&self) -> Shown<'_>
        ensures { shown_key result ≡ self.now }
    {
        self.source.shown()
    }
}

/// Puts the document in place of the one in the map under the key of the new document's first value, and returns whether there is
/// one; if there is none, the document is dropped. A document without fields has the key that no value has. Takes no memory, and
/// time logarithmic in the map's length: while the key is looked up it owns the document.
#[tactic(auto, using(crate::proofs::Absent::set_value_absent))]
pub fn replace_under_first(map: &mut BTreeMap<Key, Document>, document: Document) -> bool
    ensures documents { map.new.entries ≡ set_value (is_at (key_order (key_at (first_value document)))) map.old.entries document }
    ensures found { result ≡ is_some (get_by (key_order (key_at (first_value document))) map.old) }
{
    if let Some(key) = Key::of_first(&document) {
        return replace_under(map, &key, document);
    }
    let key = Key {
        source: KeySource::First(document),
    };
    let place = map.get_mut(&key);
    let Key { source } = key;
    let KeySource::First(document) = source else {
        unreachable!()
    };
    match place {
        Some(place) => {
            *place = document;
            true
        }
        None => false,
    }
}

/// Replaces the document that the map has under the key, if there is one, and returns whether there is.
#[tactic(auto, using(crate::proofs::Absent::set_value_absent))]
fn replace_under(map: &mut BTreeMap<Key, Document>, key: &Key, document: Document) -> bool
    ensures documents { map.new.entries ≡ set_value (is_at (key_order key.now)) map.old.entries document }
    ensures found { result ≡ is_some (get_by (key_order key.now) map.old) }
{
    match map.get_mut(key) {
        Some(there) => {
            *there = document;
            true
        }
        None => false,
    }
}

impl PartialEq for Key {
    ghost eq = { eq_by_cmp key_order };

    ghost laws = { partial_equiv_from_equiv (eq_by_cmp_equiv key_order_total) };

    fn eq(&self, other: &Key) -> bool {
        self.cmp(other).is_eq()
    }
}

impl Eq for Key {
    ghost laws = { eq_by_cmp_equiv key_order_total };
}

impl PartialOrd for Key {
    ghost partial_cmp = { as_partial_cmp key_order };

    ghost laws = { partial_order_from_total key_order_total };

    fn partial_cmp(&self, other: &Key) -> Option<Ordering> {
        Some(self.cmp(other))
    }
}

impl Ord for Key {
    ghost cmp = { key_order };

    ghost total = { key_order_total };

    ghost matches_partial_cmp = { λ x y. refl };

    ghost matches_eq = { λ x y. refl };

    fn cmp(&self, other: &Key) -> Ordering {
        // Most keys are those of integers, and these are known at once.
        if let (KeySource::Small(Small::Integer(a)), KeySource::Small(Small::Integer(b))) = (
            &self.source,
            &other.source,
        ) {
            return a.cmp(b);
        }
        let other = other.shown();
        self.shown().order(&other)
    }
}
