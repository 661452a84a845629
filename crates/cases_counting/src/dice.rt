//! Events at random, among few addresses and stack pointers, so that many returns find their calls.

use prof_base::{Branch, Done, Event, Flow, ThreadNo, Touch};

/// Throws that are the same at each run.
#[derive(Clone, Copy)]
pub struct Dice {
    state: u32,
}

const FLOWS: [Flow; 8] = [
    Flow::Plain,
    Flow::Plain,
    Flow::Call,
    Flow::Call,
    Flow::Jump,
    Flow::Jump,
    Flow::Jump,
    Flow::Swap,
];

/// Places in a function, from which a call returns to another of them or to the one after the last.
const OFFSETS: [u32; 4] = [0, 4, 8, 0x0c];

const POINTERS: [u32; 8] = [
    0x7000,
    0x6ff0,
    0x6ff0,
    0x6fe0,
    0x6fe0,
    0x6fd0,
    0x6fc0,
    0x8000_0000,
];

impl Dice {
    pub fn new(state: u32) -> Dice {
        Dice { state }
    }

    /// A number below 2^16.
    pub fn throw(&mut self) -> u32 {
        self.state = self
            .state
            .wrapping_mul(1_664_525)
            .wrapping_add(1_013_904_223);
        self.state >> 16
    }

    fn address(&mut self) -> u32 {
        let function = (self.throw() % 7).wrapping_mul(0x100).wrapping_add(0x100);
        function.wrapping_add(OFFSETS[(self.throw() % 4) as usize])
    }

    /// An event; one of a hundred ends its thread.
    pub fn event(&mut self) -> Event {
        let flow = FLOWS[(self.throw() % 8) as usize];
        let pc = self.address();
        let next = self.address();
        let sp = POINTERS[(self.throw() % 8) as usize];
        Event {
            thread: ThreadNo(1),
            done: Done {
                pc,
                next,
                sp,
                flow,
                touch: Touch::Nothing,
                branch: Branch::Nothing,
            },
            ends: self.throw() % 100 == 0,
        }
    }
}
