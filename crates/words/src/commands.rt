// The commands as the pump is asked for them, and what a text asks for. Numbers are in thousandths; data may be out of range here.
use crate::functions::Function;
use drive::{Direction, RateUnit};

#[derive(Clone, Copy, PartialEq, Eq, Debug)]
pub enum Command {
    // an over-long line, an unknown name or a malformed argument
    Malformed,
    // the empty command
    Status,
    AskDiameter,
    SetDiameter(u32),
    AskRate,
    // without units the phase's own stay
    SetRate(u32, Option<RateUnit>),
    AskVolume,
    SetVolume(u32),
    AskDirection,
    SetDirection(Direction),
    Reverse,
    AskPhase,
    SetPhase(u8),
    AskFunction,
    SetFunction(Function),
    Run,
    RunFrom(u8),
    Stop,
    AskDispensed,
    Clear(Direction),
    Reset,
}

// What a text asks for: SAF is asked of the link that it came by, every other command of the pump.
#[derive(Clone, Copy, PartialEq, Eq, Debug)]
pub enum Request {
    AskLimit,
    // seconds
    SetLimit(u16),
    Pump(Command),
}

// A text that was heard: the address that it bears, and what it asks for.
#[derive(Clone, Copy, PartialEq, Eq, Debug)]
pub struct Asked {
    pub address: u8,
    pub request: Request,
}
