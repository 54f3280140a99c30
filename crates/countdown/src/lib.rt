// The one-shot down-counter of the engine (vram_dma.rs, `Countdown`).
#![tactic(auto)]

ghost use Rattle.std.specs.Prelude.{◌≡◌};
ghost use Rattle.countdown.specs.Countdown.{armed, cleared, active_of, remaining_of, ticked, expired_of};

// Armed to a tick count, stepped toward zero, then inert.
#[derive(Clone, Copy, Default)]
pub struct Countdown(pub u8);

// The countdown after a step, with the flag of the step: both always stand, so no Option, and the names say more than a pair's places.
#[derive(Clone, Copy)]
pub struct Ticked {
    pub next: Countdown,
    pub flag: bool,
}

impl Countdown {
    pub fn arm(mut self, ticks: u8) -> Self
        ensures { result ≡ armed ticks }
    {
        self.0 = ticks;
        self
    }

    pub fn clear(mut self) -> Self
        ensures { result ≡ cleared }
    {
        self.0 = 0;
        self
    }

    pub fn active(self) -> bool
        ensures { result ≡ active_of self }
    {
        self.0 > 0
    }

    pub fn remaining(self) -> u8
        ensures { result ≡ remaining_of self }
    {
        self.0
    }

    // One tick while active. The flag: it was active before this step.
    pub fn tick(mut self) -> Ticked
        ensures { result ≡ ticked self }
    {
        let active = self.0 > 0;
        self.0 = self.0.saturating_sub(1);
        Ticked {
            next: self,
            flag: active,
        }
    }

    // One tick while active. The flag: this step drained it to zero. Beside `tick` as the paper has both, each with its own flag.
    pub fn expired(mut self) -> Ticked
        ensures { result ≡ expired_of self }
    {
        let last = self.0 == 1;
        self.0 = self.0.saturating_sub(1);
        Ticked {
            next: self,
            flag: last,
        }
    }
}
