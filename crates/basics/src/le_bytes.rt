// A number as two, four or eight bytes, lowest first.
// Three functions: `to_le_bytes` stands in each type of std and in no trait, so none can be generic over the types.
ghost use Rattle.std.specs.Prelude.{◌≡◌};
ghost use Rattle.basics.specs.Little.{le_bytes};

// The two bytes of a number, lowest first.
#[tactic(auto, unfolding(crate::specs::Little::le_bytes))]
pub fn bytes2(x: u16) -> [u8; 2]
    ensures { result ≡ le_bytes 2 x }
{
    u16::to_le_bytes(x)
}

// The four bytes of a number, lowest first.
#[tactic(auto, unfolding(crate::specs::Little::le_bytes))]
pub fn bytes4(x: u32) -> [u8; 4]
    ensures { result ≡ le_bytes 4 x }
{
    u32::to_le_bytes(x)
}

// The eight bytes of a number, lowest first.
#[tactic(auto, unfolding(crate::specs::Little::le_bytes))]
pub fn bytes8(x: u64) -> [u8; 8]
    ensures { result ≡ le_bytes 8 x }
{
    u64::to_le_bytes(x)
}
