// The number that bytes spell, lowest first. `from_le_bytes` stands in no trait of std either.
ghost use Rattle.std.specs.Prelude.{◌≡◌, ◌∷◌, [], ◌+◌, ◌*◌};
ghost use Rattle.basics.specs.Little.{le_number};

// The number that four bytes spell.
#[tactic(auto, unfolding(crate::specs::Little::le_number))]
pub fn number4(a: u8, b: u8, c: u8, d: u8) -> u32
    ensures { result ≡ le_number (a ∷ b ∷ c ∷ d ∷ []) }
{
    u32::from_le_bytes([a, b, c, d])
}

// The number that two bytes spell.
#[tactic(auto, unfolding(crate::specs::Little::le_number))]
pub fn number2(a: u8, b: u8) -> u16
    ensures { result ≡ le_number (a ∷ b ∷ []) }
{
    u16::from_le_bytes([a, b])
}

// The number whose low and high halves these are.
pub fn joined(low: u32, high: u32) -> u64
    ensures { result ≡ low + 4294967296 * high }
{
    low as u64 + 4294967296 * high as u64
}
