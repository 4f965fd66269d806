// What the strips of a tray hold.
use crate::seats::{KnownCommand, Seat};

// The command kinds of a tray.
#[derive(Clone, Copy, PartialEq, Eq, Debug)]
pub enum TrayKind {
    Push,
    Pop,
}

// A command that a tray knows.
pub type TrayCommand<E> = KnownCommand<TrayKind, E>;

// One place of a tray: the element last written there, and its tick.
#[derive(Clone, Copy, PartialEq, Eq, Debug)]
pub struct Cell<E> {
    pub element: E,
    pub tick: i64,
}

// The top of a tray: the index of its cell, the element there, and its tick. Until an access helps, the cell itself
// may still hold what was there before.
#[derive(Clone, Copy, PartialEq, Eq, Debug)]
pub struct Head<E> {
    pub index: usize,
    pub element: E,
    pub tick: i64,
}

// What a try keeps from its first access on: its command, and the head as that access read it.
#[derive(Clone, Copy)]
pub struct Try<E> {
    pub command: TrayCommand<E>,
    pub head: Head<E>,
}

// What a try is to make of the head: the element, and the tick of the cell that will be the top.
#[derive(Clone, Copy)]
pub struct Next<E> {
    pub element: E,
    pub tick: i64,
}

// A try under way, by its last access: it remembers what its next access needs, and no more.
#[derive(Clone, Copy)]
pub enum Phase<E> {
    // after access 1
    HeadRead(Try<E>),
    // after access 2, with the element of the head's cell
    CellRead(Try<E>, E),
    // after access 3
    CellWritten(Try<E>),
    // after access 4
    NeighbourRead(Try<E>, Next<E>),
}

// The seat of one worker of a tray.
pub type TraySeat<E> = Seat<TrayKind, E, Phase<E>>;
