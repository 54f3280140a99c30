// What is asked of the state and changes nothing. Written by tools/calls from calls.txt.
#[derive(Clone, Copy)]
pub enum Query {
    Tally,
    Status,
    Claim,
    ParkWaits,
    RequestStanding,
    HoldsCpu,
    SeizesBus,
    SwitchInProgress,
    DividerActive,
    DoubleSpeed,
    CpuStepsPerDot,
    WramBank,
    SvbkRegister,
    ObjectDma,
}
