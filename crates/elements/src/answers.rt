// What one access of a try answers.
#[derive(Clone, Copy, PartialEq, Eq, Debug)]
pub enum StepAnswer {
    // the try goes on
    Moved,
    // it settled: its command took effect at this access; and it goes on
    Settled,
    // it settled, and ended
    SettledEnded,
    // it had settled before, and ended
    Ended,
    // it was stood off: it ended without effect, and its command is loaded again
    StoodOff,
}
