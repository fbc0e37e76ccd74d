// A slot sealed: its checksum put behind its first twelve bytes. The checksum itself is worked out in checksum.
ghost use Rattle.std.specs.Prelude.{◌≡◌};
ghost use Rattle.codec.specs.Slots.{sealed};

use crate::SLOT;

// Twelve bytes with their checksum behind them.
pub fn seal(b: [u8; 12], check: u32) -> [u8; SLOT]
    ensures { result ≡ sealed check b }
{
    let c = basics::bytes4(check);
    [
        b[0], b[1], b[2], b[3], b[4], b[5], b[6], b[7], b[8], b[9], b[10], b[11], c[0], c[1], c[2],
        c[3],
    ]
}
