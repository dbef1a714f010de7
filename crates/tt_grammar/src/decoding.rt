//! Reading of JSON values, for a crate that reads objects of its own. A decoder gives the meaning of
//! a value or its first fault, whose path begins at the value.
pub use crate::actions::{action, action_of_one, has_action, write};
pub use crate::arrays::{ArrayDecoder, Fold, decode_items, decode_owned, fold_items};
pub use crate::conditions::{TableNameDecoder, pair};
pub use crate::decoder::{
    AnyCountDecoder, CountDecoder, Decoder, FlagDecoder, IntDecoder, OUT_OF_RANGE, TextDecoder,
    WRONG_TYPE, array, count, has, item, member, object, optional, text,
};
pub use crate::edits::ReplacementDecoder;
pub use crate::members::no_members_but;
pub use crate::quoting::quoted_text;
pub use crate::statements::{Context, checked_select, conditions, delete, insert, stamp, update};
pub use crate::tables::TablesDecoder;
pub use crate::text_value::{NOT_JSON, TOO_LONG};
pub use crate::version::{Version, VersionDecoder};
