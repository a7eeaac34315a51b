// The limits of a register.

// Most entries: ten years of a large book with room to spare, and an entry's number stays within five digits.
pub const MOST_ENTRIES: u32 = 65_536;
// Most claims: twice what a large book opens in ten years.
pub const MOST_CLAIMS: u32 = 8_192;
// The slots of a page: enough for most claims' whole life, few enough that a claim with one entry wastes little.
pub const PAGE_SLOTS: usize = 16;
