// Erasing a sector of an image: its bytes become FF in order,
// and all of it is checked.
ghost use Rattle.std.specs.Prelude.{◌≡◌, ◌+◌, ◌*◌, ◌≤◌, length};
ghost use Rattle.flash.specs.Image.{sector_size, sector_at, with_sector};
ghost use Rattle.flash.specs.Run.{blanked, erase_answer};

use crate::SECTOR;
use basics::{Answer, Refusal};

// The first n bytes become FF.
fn blank(part: &mut [u8], n: usize)
    requires { n ≤ length part.old }
    ensures { part.new ≡ blanked n part.old }
{
    part[..n].fill(0xFF);
}

// Erase n bytes of a sector, and check all of it where that is all of it.
pub fn erase_sector(image: &mut [u8], sector: usize, n: usize) -> Answer
    requires { (n ≤ sector_size) × (sector * sector_size + sector_size ≤ length image.old) }
    ensures { (result ≡ erase_answer n (blanked n (sector_at image.old sector)))
        × (image.new ≡ with_sector sector (blanked n (sector_at image.old sector)) image.old) }
{
    let a = sector * SECTOR;
    let e = a + SECTOR;
    blank(&mut image[a..e], n);
    if n < SECTOR {
        return Err(Refusal::EraseError);
    }
    if codec::is_erased(&image[a..e]) {
        Ok(())
    } else {
        Err(Refusal::EraseError)
    }
}
