//! The faults of a text.

/// In which way a text is no GML text.
#[derive(Clone, Copy, Debug, PartialEq, Eq)]
pub enum GmlKind {
    /// Where a key may stand something stands that is no key, no comment and no `]`.
    BadKey,
    /// After a key something stands that begins no value, or the text ends.
    BadValue,
    /// A word that begins as a numeral is none.
    BadNumeral,
    /// A string has no second quote.
    OpenString,
    /// The text ends inside a list.
    OpenList,
    /// A `]` stands outside all lists.
    StrayClose,
    /// A list would be within too many lists.
    TooDeep,
}

/// The first fault of a text.
#[derive(Clone, Copy, Debug, PartialEq, Eq)]
pub struct GmlFault {
    /// Where it stands in the text, in bytes counted from 0.
    pub at: u32,
    pub kind: GmlKind,
}
