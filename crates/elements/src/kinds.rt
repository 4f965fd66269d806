// The three kinds of element.

// The number of a bin.
#[derive(Clone, Copy, PartialEq, Eq, Debug)]
pub struct Bin {
    pub number: u16,
}

// An amount to add to a tally.
#[derive(Clone, Copy, PartialEq, Eq, Debug)]
pub struct Amount {
    pub units: u32,
}

// The slip of one batch of papers: its number, how many papers it has, and the station that scanned it.
#[derive(Clone, Copy, PartialEq, Eq, Debug)]
pub struct Slip {
    pub batch: u32,
    pub total: u16,
    pub station: u16,
}
