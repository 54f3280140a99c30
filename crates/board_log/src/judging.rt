// What the judge knows between two records.
ghost use Rattle.std.specs.Prelude.{◌≡◌};
ghost use Rattle.board_log.specs.Judging.{begun};

use console::Cgb;

// The engine's state after the records judged so far; how many of them, from the first on, are the engine's; and whether one is not: the count stands
// either way, so no Option.
#[derive(Clone, Copy)]
pub struct Judge {
    pub state: Cgb,
    pub agreed: u64,
    pub differs: bool,
}

// The judge after a part, and how many bytes it took of script and log each: both always stand.
#[derive(Clone, Copy)]
pub struct Fed {
    pub judge: Judge,
    pub taken: usize,
}

#[tactic(auto, unfolding(crate::specs::Judging::begun))]
pub fn begin() -> Judge
    ensures { result ≡ begun }
{
    Judge {
        state: console::power_on::power_on(false),
        agreed: 0,
        differs: false,
    }
}
