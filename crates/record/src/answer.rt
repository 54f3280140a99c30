// An answer's record: the refusal, the values, a bus call's pairs, their bytes and causes or an M-cycle call's byte, lowest byte first.
ghost use Rattle.std.specs.Prelude.{◌≡◌};
ghost use Rattle.record.specs.Answer.{answer_bytes, refused_bytes};

use told::Performed;

// A refused call's record: the number and zeros. Any number, as ever: to take a `Refusal` would ask more of its callers.
pub fn refused(number: u8) -> [u8; 24]
    ensures { result ≡ refused_bytes number }
{
    let mut out = [0; 24];
    out[0] = number;
    out
}

// One literal in the layout's order, as the definition is one list: of copies into places each would need a law.
pub fn encode(p: Performed) -> [u8; 24]
    ensures { result ≡ answer_bytes p }
{
    let [v0, v1, v2, v3] = p.told.values;
    let v0 = v0.to_le_bytes();
    let v1 = v1.to_le_bytes();
    let v2 = v2.to_le_bytes();
    let v3 = v3.to_le_bytes();
    let [first, second] = p.pairs;
    let first_source = first.source.to_le_bytes();
    let first_dest = first.dest.to_le_bytes();
    let second_source = second.source.to_le_bytes();
    let second_dest = second.dest.to_le_bytes();
    [
        p.told.refusal,
        0,
        v0[0],
        v0[1],
        v1[0],
        v1[1],
        v2[0],
        v2[1],
        v3[0],
        v3[1],
        first_source[0],
        first_source[1],
        first_dest[0],
        first_dest[1],
        second_source[0],
        second_source[1],
        second_dest[0],
        second_dest[1],
        p.bytes[0],
        p.bytes[1],
        p.causes[0],
        p.causes[1],
        0,
        0,
    ]
}
