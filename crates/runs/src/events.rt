// The calls of a run, and what took place.
use elements::answers::StepAnswer;
use elements::commands::{Command, Reply};
use elements::refusals::Refusal;
use pieces::tray::records::{Cell, Head};

// A call of one worker.
#[derive(Clone, Copy)]
pub enum Call<E> {
    Seat(usize, Command<E>),
    Step(usize),
    Take(usize),
}

// A cell, and its index.
#[derive(Clone, Copy)]
pub struct Touched<E> {
    pub index: usize,
    pub cell: Cell<E>,
}

// An access: which one of its try it was, 1 to 5; its answer; and the cell that it touched, if it touched one, as it
// left it.
#[derive(Clone, Copy)]
pub struct Access<E> {
    pub number: u8,
    pub answer: StepAnswer,
    pub touched: Option<Touched<E>>,
}

// One Step: the access that it made, or why it was refused; whose it was; and the head after it. In this order of fields
// a run is played faster than in others.
#[derive(Clone, Copy)]
pub struct Step<E> {
    pub access: Result<Access<E>, Refusal>,
    pub worker: usize,
    pub head: Option<Head<E>>,
}

// What a call did.
#[derive(Clone, Copy)]
pub enum Event<E> {
    Seated(usize, Command<E>, Result<(), Refusal>),
    Stepped(Step<E>),
    Taken(usize, Result<Reply<E>, Refusal>),
}
