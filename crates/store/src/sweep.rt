// What is kept of what the sweeper does.

// Machines have the numbers from 0 to 63.
pub const MACHINES: u8 = 64;

// The highest number of each machine, as it was noted.
#[derive(Clone, Copy)]
pub struct Noted {
    pub highest: [u32; 64],
}

// What the sweeper does, as far as it outlives a stop.
#[derive(Clone, Copy)]
pub enum Sweep {
    // it rests, or has not noted yet
    Rests,
    // it waits for a day of each machine above the noted number
    Waits(Noted),
    // it has decided, and puts back and throws away
    Ends,
}
