#![tactic(auto)]
// The CRC of OPG frames (document 01, "OPG frames").
ghost use Rattle.std.specs.Prelude.{◌≡◌, ◌<◌};
ghost use Rattle.opg_crc.specs.Crc.{crc_of};
ghost use Rattle.opg_crc.specs.Inner.{byte_of};

// The eight steps of a byte at once. y has a 1 for each step that subtracts the divisor, and the divisor has three powers below its leading one:
// so y is subtracted three times, moved to each of them. The high digits of x are only moved.
fn byte(c: u32, b: u8) -> u32
    requires { c < 65536 }
    ensures { result ≡ byte_of c b }
{
    let x = (b as u32) ^ c;
    let y = (x ^ (x * 16)) % 256;
    (y * 256) ^ (y * 8) ^ (y / 16) ^ (x / 256)
}

// The CRC of any bytes.
pub fn crc(s: &[u8]) -> u16
    ensures { result ≡ crc_of s.now }
{
    let mut c: u32 = 0xffff;
    for b in s {
        c = byte(c, *b);
    }
    c as u16
}
