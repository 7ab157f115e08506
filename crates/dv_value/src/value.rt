//! Values, documents and lists of values.

ghost use Rattle.std.specs.Prelude.{◌≡◌};
ghost use Rattle.dv_value.specs.Spelling.{kind_of};
ghost use Rattle.dv_value.specs.View.{tree};

mod copies;
mod documents;
mod dropping;
mod field_lists;
mod iter;
mod lists;
mod measures;
mod overlays;
mod sharing;
mod showing;

use crate::bytes::Bytes;
use crate::kind::Kind;
use crate::name_list::Names;
use crate::text::Str;
use crate::value::dropping::{drop_shared, drop_values};
pub use crate::value::iter::DocumentIter;
use std::alloc::Global;
use std::marker::Model;
use std::mem::size_of;
use std::rc::Rc;

/// A value of a field or of an array. In quotes: its type's name in the BSON specification, version 1.1
/// (bsonspec.org).
#[cycle(value)]
#[derive(Debug, Drop)]
pub enum Value {
    /// "32-bit integer", signed.
    Int32(i32),
    /// "64-bit integer", signed.
    Int64(i64),
    /// "UTF-8 string", which may hold the character U+0000.
    Text(Str),
    /// "Embedded document".
    Doc(Document),
    /// "Array", of values of any types.
    Array(List),
    /// "Binary data": bytes whose use the subtype names. They are kept as they are, whatever the subtype is.
    Binary {
        /// "Binary subtype".
        subtype: u8,
        /// The bytes, without the subtype.
        bytes: Bytes,
    },
    /// "ObjectId".
    ObjectId([u8; 12]),
    /// "Boolean".
    Bool(bool),
    /// "UTC datetime", in milliseconds since the Unix epoch.
    Date(i64),
    /// "Null value".
    Null,
    /// "Timestamp": the upper 32 bits are seconds since the Unix epoch, the lower 32 count within a second.
    Timestamp(u64),
    /// "Min key", which comes before all other values.
    MinKey,
    /// "Max key", which comes after all other values.
    MaxKey,
}

/// How many bytes a value takes in a list or a document, besides the memory that it owns.
const _: () = prove!(size_of::<Value>() == 32);

/// How many bytes a document takes, besides the memory that it shares with its copies.
const _: () = prove!(size_of::<Document>() == 16);

/// With the two counts of a shared pointer, no more than 56 bytes, for which malloc takes a chunk of 64.
const _: () = prove!(size_of::<Measured>() == 40);

/// The fields of a document and of its copies, in the order in which they were added. A reader collects fields before there is a
/// document.
#[cycle(value)]
#[derive(Debug, Drop)]
pub struct Fields {
    /// Shared with documents of the same names. Names without a value may follow those of the fields: the names of a longer
    /// document, which begin with these.
    names: Rc<Names>,
    values: Vec<Value>,
}

/// Fields, and the length of their encoding, if it is known.
#[cycle(value)]
#[derive(Debug)]
pub(crate) struct Measured {
    fields: Fields,
    /// Updated when a value is added, or put in place of one that is dropped; other changes drop it. If there is one, the fields
    /// are also known to be valid at each of their levels, and to have at most 100 levels.
    size: Option<u32>,
}

/// A text or a binary that documents share.
#[cycle(value)]
#[derive(Debug)]
pub(crate) struct SharedText {
    value: Rc<Value>,
}

/// What a field shows instead of its own value, if anything.
#[cycle(value)]
#[derive(Debug, Drop)]
pub(crate) enum Cover {
    /// It shows its own value.
    Absent,
    /// It shows this one.
    Shared(SharedText),
}

/// Fields, some of which show values that other documents share.
#[cycle(value)]
#[derive(Debug)]
pub(crate) struct Overlay {
    /// A covered field has null as its own value.
    fields: Fields,
    /// One for each field.
    covers: Vec<Cover>,
}

/// What a document holds. Its fields are shared with its copies until one of them is changed.
#[cycle(value)]
#[derive(Debug, Drop)]
pub(crate) enum Content {
    /// No field: a new document takes no memory.
    Empty,
    /// Fields with values of their own.
    Own(Rc<Measured>),
    /// Fields, some of which show values that other documents share, too.
    Over(Rc<Overlay>),
}

/// Fields in the order in which they were added. No two have the same name, and no name holds a zero byte.
#[cycle(value)]
#[derive(Debug, Drop)]
pub struct Document {
    alloc: Global,
    content: Content,
}

/// The values of an array, in order.
#[cycle(value)]
#[derive(Debug, Drop)]
pub struct List {
    values: Vec<Value>,
}

impl Model for Fields {
    ghost use Rattle.std.specs.Prelude as prelude;
    ghost use Rattle.std.specs.Prelude.{ℕ, ◌*◌, ◌≤◌, map, length};
    ghost use Rattle.std.specs.List.{zip};
    ghost use Rattle.std.specs.Coded.{coded_list, coded×, coded_ℕ};
    ghost use Rattle.dv_value.specs.Tree.{Field, fields_of};
    ghost use Rattle.dv_value.specs.Inner.Tree.{fields_weight};
    ghost use Rattle.dv_value.specs.Inner.TreeCode.{coded_tree};

    ghost Value = { prelude.List Field };

    ghost coded = { coded_list (coded× (coded_list coded_ℕ) coded_tree) };

    ghost use Rattle.dv_value.specs.View.{tree};

    ghost view = { λ f. zip f.names.value (map tree f.values.items) };

    ghost invariant = { λ f. length f.values.items ≤ length f.names.value };

    ghost size = { λ fs. 3 * fields_weight (fields_of fs) };

    ghost use Rattle.std.proofs.Common.{arith};
    ghost use Rattle.dv_value.specs.Inner.ViewFalls.{fields_fall};

    ghost size_decreases = { λ f h. omega (arith, fields_fall f.names.value f.values.items h) };
}

impl Model for Measured {
    ghost use Rattle.std.specs.Prelude as prelude;
    ghost use Rattle.std.specs.Prelude.{ℕ, suc, ◌*◌, IfSome};
    ghost use Rattle.std.specs.Coded.{coded_list, coded×, coded_ℕ};
    ghost use Rattle.dv_value.specs.Tree.{Field, fields_of};
    ghost use Rattle.dv_value.specs.Inner.Tree.{fields_weight};
    ghost use Rattle.dv_value.specs.Inner.TreeCode.{coded_tree};
    ghost use Rattle.dv_value.specs.Measure.{IsMeasure};

    ghost Value = { prelude.List Field };

    ghost coded = { coded_list (coded× (coded_list coded_ℕ) coded_tree) };

    ghost view = { λ m. m.fields };

    ghost invariant = { λ m. IfSome m.size (λ size. IsMeasure size m.fields) };

    ghost size = { λ fs. suc (3 * fields_weight (fields_of fs)) };

    ghost use Rattle.std.proofs.Common.{arith};

    ghost size_decreases = { λ m h. Prim.grind arith };
}

impl Drop for Measured {
    fn drop(self) {
        drop_values(self.into_values());
    }
}

impl Model for SharedText {
    ghost use Rattle.std.specs.Prelude.{◌*◌};
    ghost use Rattle.dv_value.specs.Tree.{Tree};
    ghost use Rattle.dv_value.specs.Inner.Tree.{weight};
    ghost use Rattle.dv_value.specs.Inner.TreeCode.{coded_tree};
    ghost use Rattle.dv_value.specs.Inner.Covers.{IsText};

    ghost Value = { Tree };

    ghost coded = { coded_tree };

    ghost use Rattle.dv_value.specs.View.{tree};

    ghost view = { λ s. tree s.value.value };

    ghost invariant = { λ s. IsText (tree s.value.value) };

    ghost size = { λ v. 3 * weight v };

    ghost use Rattle.std.proofs.Common.{arith};
    ghost use Rattle.dv_value.specs.Inner.ViewFalls.{value_falls};

    ghost size_decreases = { λ s h. omega (arith, value_falls s.value.value) };
}

impl Drop for SharedText {
    fn drop(self) {
        drop_shared(self);
    }
}

impl Model for Overlay {
    ghost use Rattle.std.specs.Prelude as prelude;
    ghost use Rattle.std.specs.Prelude.{ℕ, suc, ◌*◌, map};
    ghost use Rattle.std.specs.Coded.{coded_list, coded×, coded_ℕ};
    ghost use Rattle.dv_value.specs.Tree.{Field, fields_of};
    ghost use Rattle.dv_value.specs.Inner.Tree.{fields_weight};
    ghost use Rattle.dv_value.specs.Inner.TreeCode.{coded_tree};
    ghost use Rattle.dv_value.specs.Inner.Covers.{covered, AreCovered};

    ghost Value = { prelude.List Field };

    ghost coded = { coded_list (coded× (coded_list coded_ℕ) coded_tree) };

    ghost use Rattle.dv_value.specs.View.{covering};

    ghost view = { λ o. covered o.fields (map covering o.covers.items) };

    ghost invariant = { λ o. AreCovered o.fields (map covering o.covers.items) };

    ghost size = { λ fs. suc (3 * fields_weight (fields_of fs)) };

    ghost use Rattle.std.proofs.Common.{arith};
    ghost use Rattle.dv_value.specs.Inner.CoversFall.{covers_fall, own_fall};

    ghost size_decreases = { λ o h. omega (arith, own_fall o.fields (map covering o.covers.items) h, covers_fall o.fields o.covers.items h) };
}

impl Drop for Overlay {
    fn drop(self) {
        drop_values(self.into_values());
    }
}

impl Model for Document {
    ghost use Rattle.std.specs.Prelude as prelude;
    ghost use Rattle.std.specs.Prelude.{ℕ, suc, ◌*◌};
    ghost use Rattle.std.specs.Coded.{coded_list, coded×, coded_ℕ};
    ghost use Rattle.dv_value.specs.Tree.{Field, fields_of};
    ghost use Rattle.dv_value.specs.Inner.Tree.{fields_weight};
    ghost use Rattle.dv_value.specs.Inner.TreeCode.{coded_tree};

    ghost Value = { prelude.List Field };

    ghost coded = { coded_list (coded× (coded_list coded_ℕ) coded_tree) };

    ghost use Rattle.dv_value.specs.View.{held};

    ghost view = { λ d. held d.content };

    ghost size = { λ fs. suc (suc (3 * fields_weight (fields_of fs))) };

    ghost use Rattle.std.proofs.Common.{arith};

    ghost size_decreases = { λ d h. Prim.grind arith };
}

impl Model for List {
    ghost use Rattle.std.specs.Prelude as prelude;
    ghost use Rattle.std.specs.Prelude.{◌*◌, map};
    ghost use Rattle.std.specs.Coded.{coded_list};
    ghost use Rattle.dv_value.specs.Tree.{Tree, elements_of};
    ghost use Rattle.dv_value.specs.Inner.Tree.{elements_weight};
    ghost use Rattle.dv_value.specs.Inner.TreeCode.{coded_tree};

    ghost Value = { prelude.List Tree };

    ghost coded = { coded_list coded_tree };

    ghost use Rattle.dv_value.specs.View.{tree};

    ghost view = { λ l. map tree l.values.items };

    ghost size = { λ vs. 3 * elements_weight (elements_of vs) };

    ghost use Rattle.std.proofs.Common.{arith};
    ghost use Rattle.dv_value.specs.Inner.ViewFalls.{values_fall};

    ghost size_decreases = { λ l h. omega (arith, values_fall l.values.items) };
}

impl Value {
    /// The type of the value.
    pub fn kind(&self) -> Kind
        ensures { result ≡ kind_of (tree self.now) }
    {
        match self {
            Value::Int32(_) => Kind::Int32,
            Value::Int64(_) => Kind::Int64,
            Value::Text(_) => Kind::Text,
            Value::Doc(_) => Kind::Doc,
            Value::Array(_) => Kind::Array,
            Value::Binary { .. } => Kind::Binary,
            Value::ObjectId(_) => Kind::ObjectId,
            Value::Bool(_) => Kind::Bool,
            Value::Date(_) => Kind::Date,
            Value::Null => Kind::Null,
            Value::Timestamp(_) => Kind::Timestamp,
            Value::MinKey => Kind::MinKey,
            Value::MaxKey => Kind::MaxKey,
        }
    }
}
