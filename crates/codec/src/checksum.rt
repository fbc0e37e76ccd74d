// The checksum of a slot: begun with the seq of its sector, worked over the slot's first twelve bytes, and read from behind them.
ghost use Rattle.std.specs.Prelude.{◌≡◌, length, take};
ghost use Rattle.codec.specs.Slots.{slot_size, crc_from, crc_in, seq_fed};

// The checksum register after a sector's seq: what the records of that sector start from.
pub fn under(seq: u32) -> u32
    ensures { result ≡ seq_fed seq }
{
    crc::update_word(crc::start(), seq)
}

// The checksum of a slot's first twelve bytes, from a register on.
pub fn check12(start: u32, slot: &[u8]) -> u32
    requires { length slot.now ≡ slot_size }
    ensures { result ≡ crc_from start (take 12 slot.now) }
{
    crc::finish(crc::update(start, &slot[0..12]))
}

// The checksum that a slot carries.
pub fn carried(slot: &[u8]) -> u32
    requires { length slot.now ≡ slot_size }
    ensures { result ≡ crc_in slot.now }
{
    basics::number4(slot[12], slot[13], slot[14], slot[15])
}
