// A replay record: 16 bytes, of the kinds 1 to 7 alone.
ghost use Rattle.std.specs.Prelude.{◌≡◌};
ghost use Rattle.arithmetic.specs.Number.{bytes_at};
ghost use Rattle.replay_step.specs.Record.{record_of, record_at_start};

use call::Call;
use memory::byte_at;

// The first 16 bytes, 0 where there are fewer.
pub fn sixteen(bytes: &[u8]) -> [u8; 16]
    ensures { result ≡ bytes_at bytes.now 0 16 }
{
    [
        byte_at(bytes, 0),
        byte_at(bytes, 1),
        byte_at(bytes, 2),
        byte_at(bytes, 3),
        byte_at(bytes, 4),
        byte_at(bytes, 5),
        byte_at(bytes, 6),
        byte_at(bytes, 7),
        byte_at(bytes, 8),
        byte_at(bytes, 9),
        byte_at(bytes, 10),
        byte_at(bytes, 11),
        byte_at(bytes, 12),
        byte_at(bytes, 13),
        byte_at(bytes, 14),
        byte_at(bytes, 15),
    ]
}

#[tactic(auto, unfolding(crate::specs::Record::record_of))]
fn of_sixteen(bytes: [u8; 16]) -> Option<Call>
    ensures { result ≡ record_of bytes }
{
    if bytes[0] > 7 {
        return None;
    }
    record::decode(bytes)
}

// The call of the record at the start of some bytes; a short one is of no kind.
#[tactic(auto, unfolding(crate::specs::Record::record_at_start))]
pub fn record_of(bytes: &[u8]) -> Option<Call>
    ensures { result ≡ record_at_start bytes.now }
{
    match bytes.first_chunk::<16>() {
        Some(sixteen) => of_sixteen(*sixteen),
        None => None,
    }
}
