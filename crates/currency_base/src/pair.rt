use crate::{AttrId, RowId};

/// Of one attribute, that one row's value is older than another's: the earlier row, then the later.
#[derive(Clone, Copy, Debug, Default, PartialEq, Eq, PartialOrd, Ord, Hash)]
pub struct Pair {
    pub attr: AttrId,
    pub earlier: RowId,
    pub later: RowId,
}
