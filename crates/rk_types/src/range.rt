ghost use Rattle.std.specs.Prelude.{◌≡◌};
ghost use Rattle.rk_types.specs.Range.{has as has_lem, meets as meets_lem};

/// The key hashes from `first` to `last`, both included, of one table.
#[derive(Clone, Copy, PartialEq, Eq)]
pub struct Range {
    pub table: u64,
    pub first: u64,
    pub last: u64,
}

impl Range {
    /// Whether this hash of this table is in the range.
    pub fn has(&self, table: u64, hash: u64) -> bool
        ensures { result ≡ has_lem self.now table hash }
    {
        self.table == table && self.first <= hash && hash <= self.last
    }

    /// Whether some hash of a table is in both ranges, of which neither is empty.
    pub fn meets(&self, other: &Range) -> bool
        ensures { result ≡ meets_lem self.now other.now }
    {
        self.table == other.table && self.first <= other.last && other.first <= self.last
    }
}
