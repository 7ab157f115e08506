//! The name of a field.

ghost use Rattle.std.specs.Prelude.{◌≡◌, IfOk};
ghost use Rattle.std.specs.Str.{bytes_eq};
ghost use Rattle.dv_value.specs.Names as names;

use crate::NoMemory;
use arrayvec::ArrayString;
use std::alloc::Global;
use std::marker::Model;

/// The most bytes of a name that is stored in the `Name` itself. With this limit, a short name takes as much room there as the
/// `String` of a longer one.
const SHORT_LEN: usize = 16;

/// Where a name is stored.
#[derive(Debug, Drop)]
pub(crate) enum Kept {
    /// In the value itself.
    Short(ArrayString<SHORT_LEN>),
    /// In memory of its own.
    Long(String),
}

/// A name. One of at most 16 bytes takes no memory of its own.
#[derive(Debug, Drop)]
pub struct Name {
    kept: Kept,
}

impl Model for Name {
    ghost use Rattle.std.specs.Prelude.{List, ℕ};
    ghost use Rattle.dv_value.specs.Kept.{kept_bytes};

    ghost Value = { List ℕ };

    ghost view = { λ n. kept_bytes n.kept };
}

impl Name {
    /// The name with this text. Fails with `NoMemory` when memory runs out.
    pub fn of(alloc: Global, text: &str) -> Result<Self, NoMemory>
        ensures { IfOk result (λ name. name ≡ text.now) }
    {
        let kept = match ArrayString::from(text) {
            Ok(short) => Kept::Short(short),
            Err(_) => Kept::Long(String::from_str(alloc, text)?),
        };
        Ok(Name { kept })
    }

    /// The name's text.
    pub fn as_str(&self) -> &str
        ensures { result.now ≡ self.now }
    {
        match &self.kept {
            Kept::Short(text) => text.as_str(),
            Kept::Long(text) => text.as_str(),
        }
    }

    /// Whether this is the name. Most other names differ in length or in the last byte, which are compared first.
    #[inline]
    pub(crate) fn is(&self, name: &str) -> bool
        ensures { result ≡ bytes_eq self.now name.now }
    {
        let own = self.as_str();
        let len = own.len();
        if len != name.len() {
            return false;
        }
        if len > 0 && own.as_bytes()[len - 1] != name.as_bytes()[len - 1] {
            return false;
        }
        own == name
    }

    /// A copy of its own. Fails with `NoMemory` when memory runs out.
    pub fn try_clone(&self) -> Result<Self, NoMemory>
        ensures { IfOk result (λ copy. copy ≡ self.now) }
    {
        let kept = match &self.kept {
            Kept::Short(text) => Kept::Short(*text),
            Kept::Long(text) => Kept::Long(text.clone()?),
        };
        Ok(Name { kept })
    }
}

/// Whether the name begins with a dollar sign.
pub fn begins_with_dollar(name: &str) -> bool
    ensures { result ≡ names.begins_with_dollar name.now }
{
    match name.as_bytes() {
        [first, ..] => *first == b'$',
        [] => false,
    }
}
