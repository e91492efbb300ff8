use currency_base::RowId;

/// Two rows of one entity, the one with the lesser number first.
#[derive(Clone, Copy, PartialEq, Eq)]
pub struct RowPair {
    pub earlier: RowId,
    pub later: RowId,
}
