// What a part of the engine's own log comes to.
use console::Cgb;

// The state after a part of a script, and how many bytes were taken of it, as many as were written: both always stand.
#[derive(Clone, Copy)]
pub struct Logged {
    pub state: Cgb,
    pub taken: usize,
}
