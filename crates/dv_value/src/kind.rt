//! The types of values, as their bytes name them.

ghost use Rattle.std.specs.Prelude.{◌≡◌};
ghost use Rattle.dv_value.specs.Spelling.{type_byte};

/// The type of a value, by the name that `Value` has for it.
#[derive(Clone, Copy, Debug, PartialEq, Eq)]
pub enum Kind {
    Text,
    Doc,
    Array,
    Binary,
    ObjectId,
    Bool,
    Date,
    Null,
    Int32,
    Timestamp,
    Int64,
    MinKey,
    MaxKey,
}

impl Kind {
    /// The byte of the type.
    pub fn byte(self) -> u8
        ensures { result ≡ type_byte self }
    {
        match self {
            Kind::Text => 0x02,
            Kind::Doc => 0x03,
            Kind::Array => 0x04,
            Kind::Binary => 0x05,
            Kind::ObjectId => 0x07,
            Kind::Bool => 0x08,
            Kind::Date => 0x09,
            Kind::Null => 0x0A,
            Kind::Int32 => 0x10,
            Kind::Timestamp => 0x11,
            Kind::Int64 => 0x12,
            Kind::MaxKey => 0x7F,
            Kind::MinKey => 0xFF,
        }
    }
}
