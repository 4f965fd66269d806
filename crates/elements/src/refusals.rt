// Why a call is turned down, and by which layer.
#[derive(Clone, Copy, PartialEq, Eq, Debug)]
pub enum Layer {
    Bay,
    Piece,
    Door,
    Sheet,
}

// The questions that are asked before a call. The first that is answered by no is the cause of the refusal.
#[derive(Clone, Copy, PartialEq, Eq, Debug)]
pub enum Cause {
    // is the worker below the number of workers?
    NoSuchWorker,
    // is the worker idle, its seat empty?
    NotIdle,
    // is the manner one of the three?
    UnknownManner,
    // is the command's kind known?
    UnknownKind,
    // are there seatings left?
    NoSeatingsLeft,
    // is a call unfinished, the seat loaded or running?
    NothingToStep,
    // is the call finished, the seat ended or loaded without a try?
    NothingToTake,
    // is the worker away from the door?
    NotAway,
    // is it waiting?
    NotWaiting,
    // is it inside?
    NotInside,
    // is the sheet short enough?
    SheetTooLong,
    // is the record there whole?
    RecordCutShort,
    // has it room for its kind?
    RecordWithoutKind,
    // is its kind known?
    UnknownRecordKind,
    // is the setup the first record, and only that?
    SetupMisplaced,
    // has the body its kind's length?
    WrongBodyLength,
    // are the values of the setup listed?
    UnknownSetup,
}

#[derive(Clone, Copy, PartialEq, Eq, Debug)]
pub struct Refusal {
    pub layer: Layer,
    pub cause: Cause,
}
