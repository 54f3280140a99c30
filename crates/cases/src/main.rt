// Runs document 01's cases and declined inputs, and document 02's object DMA, through the public calls, a line for each observation.
// What the lines must say stands in the file stdout, written from the papers' numbers and rules.
#![tactic(auto)]

mod blackouts;
mod case;
mod cuts;
mod declined;
mod deposit;
mod general;
mod grants;
mod hblank;
mod lengths;
mod lent;
mod map;
mod object;
mod pairs;
mod say;

use std::rt::Stdout;

// K1 to K8 and the last place of a deposit, but for K3, which is with the map's cases.
fn moving(out: Stdout) {
    general::k1(out);
    hblank::k2(out);
    pairs::k4(out);
    pairs::k5(out);
    cuts::k6(out);
    blackouts::k7(out, 4);
    blackouts::k7(out, 3);
    deposit::k8(out);
    deposit::last_place(out);
}

fn main(rt: HostRuntime) {
    let out = rt.stdout();
    map::map(out);
    moving(out);
    grants::k9(out);
    declined::modes(out);
    declined::switches(out);
    lengths::each(out);
    object::object_dma(out);
}
