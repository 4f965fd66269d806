// What a worker asks of a shared object, and what it is told.
ghost use Rattle.std.specs.Prelude.{◌≡◌};
ghost use Rattle.elements.specs.Codes.{reply};

// A command: a kind number and an element. Any number comes in; whether it is known is a question the object asks.
#[derive(Clone, Copy, PartialEq, Eq, Debug)]
pub struct Command<E> {
    pub kind: u8,
    pub element: E,
}

// A reply: a code and an element. The code is a number, since an object of another make may have codes of its own.
#[derive(Clone, Copy, PartialEq, Eq, Debug)]
pub struct Reply<E> {
    pub code: u8,
    pub element: E,
}

impl<E> Reply<E> {
    // A reply with a code of the collection's own.
    pub fn new(code: Code, element: E) -> Reply<E>
        ensures { result ≡ reply code element }
    {
        Reply {
            code: u8::from(code),
            element,
        }
    }
}

// The reply codes of the collection's own objects. Another object may have others, but for 0 and 9.
#[derive(Clone, Copy, PartialEq, Eq, Debug)]
pub enum Code {
    // a push laid its element on the tray
    Done,
    // a push found the tray full
    Full,
    // a pop took the element off the tray
    Popped,
    // a pop found the tray empty
    Empty,
    // an add went into the tally, which is now this
    Added,
    // an add would have passed the tally's limit
    Over,
    // the tally is this
    Total,
    // the call was stood off: it took no effect
    StoodOff,
}
