//! Keys as they are compared, wherever they are stored.

ghost use Rattle.std.specs.Prelude.{◌≡◌, IfSome, true};
ghost use Rattle.dv_value.specs.View.{tree};
ghost use Rattle.dv_order.specs.Codes.{key_high, key_low, key_of_code};
ghost use Rattle.dv_order.specs.Key.{key_class, key_order, value as key_of_tree};
ghost use Rattle.dv_order.specs.LentKeys.{lent_key};
ghost use Rattle.dv_order.specs.Order.{canon};
ghost use Rattle.dv_order.specs.Inner.Sources.{shown_key};

use crate::code::{KeyCode, numbers_of_bytes};
use crate::comparison::{compare_binaries, compare_documents, compare_lists};
use crate::lent::LentKey;
use crate::small::Small;
use dv_value::{Document, List, Value};
use std::cmp::Ordering;

/// A key as it is compared.
#[derive(Clone, Copy, Debug, Drop)]
pub(crate) enum Shown<'k> {
    /// The key that no value has.
    Nothing,
    Small(Small),
    Text(&'k str),
    Document(&'k Document),
    Array(&'k List),
    Binary { subtype: u8, bytes: &'k [u8] },
}

impl<'k> Shown<'k> {
    /// The key of the value.
    pub(crate) fn of(value: &'k Value) -> Self
        ensures { shown_key result ≡ key_of_tree (canon (tree value.now)) }
    {
        if let Some(small) = Small::of(value) {
            return Shown::Small(small);
        }
        match value {
            Value::Text(text) => Shown::Text(text.as_str()),
            Value::Doc(document) => Shown::Document(document),
            Value::Array(list) => Shown::Array(list),
            Value::Binary { subtype, bytes } => Shown::Binary {
                subtype: *subtype,
                bytes: bytes.as_slice(),
            },
            _ => unreachable!(),
        }
    }

    /// The key that is lent.
    pub(crate) fn of_lent(key: &LentKey<'k>) -> Self
        ensures { shown_key result ≡ lent_key key.now }
    {
        match key {
            LentKey::Text(text) => Shown::Text(*text),
            LentKey::Document(document) => Shown::Document(*document),
        }
    }

    /// The key, lent, if it is that of a text or of a document.
    pub(crate) fn lent(&self) -> Option<LentKey<'k>>
        ensures { IfSome result (λ lent. lent_key lent ≡ shown_key self.now) }
    {
        match self {
            Shown::Text(text) => Some(LentKey::Text(*text)),
            Shown::Document(document) => Some(LentKey::Document(*document)),
            _ => None,
        }
    }

    /// The order of the two keys.
    pub(crate) fn order(&self, other: &Shown) -> Ordering
        ensures { result ≡ key_order (shown_key self.now) (shown_key other.now) }
    {
        match (self, other) {
            (Shown::Small(a), Shown::Small(b)) => a.order(b),
            (Shown::Text(a), Shown::Text(b)) => a.cmp(b),
            (Shown::Document(a), Shown::Document(b)) => compare_documents(a, b),
            (Shown::Array(a), Shown::Array(b)) => compare_lists(a, b),
            (
                Shown::Binary { subtype, bytes },
                Shown::Binary {
                    subtype: other_subtype,
                    bytes: other_bytes,
                },
            ) => compare_binaries(*subtype, *bytes, *other_subtype, *other_bytes),
            _ => self.class().cmp(&other.class()),
        }
    }

    /// The code of the key.
    pub(crate) fn code(&self) -> KeyCode
        ensures class { result.class ≡ key_class (shown_key self.now) }
        ensures high { result.high ≡ key_high (shown_key self.now) }
        ensures low { result.low ≡ key_low (shown_key self.now) }
        ensures exact { result.is_exact ≡ true → key_of_code result.class result.high result.low ≡ shown_key self.now }
    {
        let class = self.class();
        match self {
            Shown::Small(small) => small.code(),
            Shown::Text(text) => {
                let (high, low) = numbers_of_bytes(text.as_bytes());
                KeyCode {
                    class,
                    high,
                    low,
                    is_exact: false,
                }
            }
            Shown::Nothing => KeyCode {
                class,
                high: 0,
                low: 0,
                is_exact: true,
            },
            _ => KeyCode {
                class,
                high: 0,
                low: 0,
                is_exact: false,
            },
        }
    }

    /// The key's class among the classes of values.
    fn class(&self) -> u8
        ensures { result ≡ key_class (shown_key self.now) }
    {
        match self {
            Shown::Nothing => 1,
            Shown::Small(small) => small.class(),
            Shown::Text(_) => 4,
            Shown::Document(_) => 5,
            Shown::Array(_) => 6,
            Shown::Binary { .. } => 7,
        }
    }
}
