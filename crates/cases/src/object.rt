// Object DMA (document 02, A1): FF46, its M-cycle call, arbitration and the bus call from inside, what is asked of it. An M-cycle
// beside a transfer is made as a console makes it: arbitration, M-cycle call, bus call.
use crate::case::Case;
use crate::lent::Memory;
use crate::say;
use engine::{Arbitration, Cycled};
use std::rt::Stdout;

// Pages go up to DFh, and 21 leaves what runs alone; a read gets 4.
fn pages(case: Case) {
    case.object_dma("object DMA");
    let started = case.written("FF46=DF", 0xFF46, 0xDF);
    started.object_dma("object DMA");
    started
        .written("FF46=E0", 0xFF46, 0xE0)
        .compare(started.state);
    started.read("read FF46", 0xFF46);
}

// An M-cycle call, the cartridge's bytes telling their addresses, WRAM of 99.
fn call(case: Case, arbitration: Arbitration, lent: &mut Memory) -> Cycled {
    lent.wram = [0x99; memory::WRAM];
    engine::object_dma_m_cycle(
        case.state,
        arbitration,
        &lent.cartridge,
        &lent.wram,
        &lent.vram,
        &mut lent.oam,
    )
}

// One with a line for its answer, and behind it what OAM has then in its first places and in its last.
fn cycle(case: Case, label: &str, arbitration: Arbitration) -> Case {
    let mut lent = Memory::new();
    let cycled = call(case, arbitration, &mut lent);
    case.answered(label, cycled.answer.map(|cycle| (cycle, cycled.byte)));
    lent.say_oam(case.out);
    lent.say_place(case.out, 0x9F);
    case.at(cycled.state)
}

// So many clear ones, of which only the state is wanted: in the same memory, since one of its own for each was most of what the cases took.
fn moved_on(start: Case, turns: u8) -> Case {
    let mut case = start;
    let mut lent = Memory::new();
    for _ in 0..turns {
        case = case.at(call(case, Arbitration::Clear, &mut lent).state);
    }
    case
}

// At rest nothing happens, whatever arbitration answered.
fn rests(case: Case) {
    let one = cycle(case, "at rest, clear", Arbitration::Clear);
    let two = cycle(one, "at rest, contended", Arbitration::Contended);
    let three = cycle(two, "at rest, stall", Arbitration::Stall);
    three.compare(case.state);
}

// Clear, a byte moves; contended, it is passed over and counted; in a stall it waits.
fn three_counted(case: Case) -> Case {
    let one = cycle(case, "clear", Arbitration::Clear);
    let two = cycle(one, "contended", Arbitration::Contended);
    let still = cycle(two, "stall", Arbitration::Stall);
    still.object_dma("object DMA");
    cycle(still, "clear", Arbitration::Clear)
}

// The 160th, from 129Fh to FE9Fh, ends it.
fn ended(case: Case) {
    let almost = moved_on(case, 156);
    almost.object_dma("object DMA");
    let all = cycle(almost, "clear", Arbitration::Clear);
    all.object_dma("object DMA");
    rests(all);
}

fn m_cycles(out: Stdout) {
    say::line(out, "object DMA's M-cycles");
    let start = Case::power_on(out, false);
    rests(start);
    let three = three_counted(start.set(0xFF46, 0x12));
    ended(three);
    three
        .set(0xFF46, 0x13)
        .object_dma("FF46=13 in front of that: object DMA");
}

// A fall, and an M-cycle of both in which object DMA's byte is passed over.
fn contended(case: Case) -> Case {
    let shared = case.fallen(3).arbitrate_inside("fall, arbitration", true);
    cycle(shared, "contended", Arbitration::Contended).bus_inside("bus, pairs")
}

// The 160th counted, in an M-cycle that the transfer does not hold.
fn last(case: Case) -> Case {
    let free = moved_on(case, 158).arbitrate_inside("not held, arbitration", false);
    let all = cycle(free, "clear", Arbitration::Clear);
    all.object_dma("object DMA");
    all
}

// Contention reaches one M-cycle past the 160th, and its deposit takes the edge that FF46 was given: with block edge 0, 4 is phase 1
// and gives the first byte, where 0 would give the second.
fn beside(out: Stdout) {
    say::line(out, "object DMA beside a General transfer");
    let started = Case::power_on(out, false).start_object_dma(0xC0, 4);
    let first = contended(started.set(0xFF55, 0x00));
    let past = contended(last(first));
    let clear = past.fallen(3).arbitrate_inside("fall, arbitration", true);
    clear.bus_inside("bus, pairs");
}

// A block whose commit, K2's third fall, came at this edge, with its set-up cell taken and two pairs to move.
fn block_at(out: Stdout, edge: u64) -> Case {
    let armed = Case::power_on(out, false).set(0xFF55, 0x80);
    let fourth = armed
        .fallen(3)
        .fallen(0)
        .fallen_at(0, edge)
        .fallen_at(0, edge);
    fourth.bus("bus, pairs").fallen_at(0, edge)
}

fn landed(case: Case, label: &str, start_edge: u64) {
    let started = case.start_object_dma(0xC0, start_edge);
    started
        .arbitrate_inside(label, true)
        .bus_inside("bus, pairs");
}

// K8 with the start edge from inside: 98 and 92 the second, 96 and 94 the first. Where FF46 was never written it is 0, and arbitration
// is told of an OAM DMA: both 0, the second.
fn k8(out: Stdout) {
    say::line(out, "K8 from inside");
    let at_100 = block_at(out, 100);
    landed(at_100, "start edge 98, arbitration", 98);
    landed(at_100, "start edge 92, arbitration", 92);
    landed(at_100, "start edge 96, arbitration", 96);
    landed(at_100, "start edge 94, arbitration", 94);
    let zero = block_at(out, 0).arbitrate("FF46 never written, arbitration");
    zero.bus_inside("bus, pairs");
}

pub fn object_dma(out: Stdout) {
    say::line(out, "FF46");
    pages(Case::power_on(out, false));
    say::line(out, "FF46 under compat");
    pages(Case::power_on(out, true));
    m_cycles(out);
    beside(out);
    k8(out);
}
