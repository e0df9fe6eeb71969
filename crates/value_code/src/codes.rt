//! The first byte of the code of each type.

pub(crate) const BOOL: u8 = 1;

pub(crate) const U8: u8 = 2;

pub(crate) const U16: u8 = 3;

pub(crate) const U32: u8 = 4;

pub(crate) const U64: u8 = 5;

pub(crate) const I8: u8 = 6;

pub(crate) const I16: u8 = 7;

pub(crate) const I32: u8 = 8;

pub(crate) const I64: u8 = 9;

pub(crate) const TEXT: u8 = 10;

pub(crate) const BYTES: u8 = 11;
/// A list; the code of its item type follows.
pub(crate) const LIST: u8 = 12;
/// A group of fields; the number of members and their codes follow.
pub(crate) const FIELDS: u8 = 13;
