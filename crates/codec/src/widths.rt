// No code: a theorem about the type of the state.
ghost use Rattle.codec.specs.Fits.{Fits};

use console::Cgb;

// Whatever state code holds, each field is within its type's width. The laws of the round trip (specs/RoundTrip.antt) ask for
// that, so they speak of every state. Nothing calls it: that it is proved says so.
fn every_state_fits(state: Cgb)
    ensures { Fits state }
{
    // Its width is that of the byte that it is written as.
    let _latency = state.speed_switch_wake_latency.unwrap_or(0);
}
