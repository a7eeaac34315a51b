// The cards by which the paged register finds its way.

// The card of a page: the page that follows it for the same claim.
#[derive(Clone, Copy, Default, PartialEq, Debug)]
pub struct PageCard {
    // never read where no page follows, so an `Option` would only double the lent cards
    pub next: u32,
}

// The card of a claim: its first page, the number of its last entry, and how many slots are free behind that entry in its
// page.
#[derive(Clone, Copy, Default, PartialEq, Debug)]
pub struct ClaimCard {
    pub first: u32,
    // 0 for none, and no `Option`: `last <= after` covers both cases, and the lent cards stay small
    pub last: u32,
    pub spare: u32,
}
