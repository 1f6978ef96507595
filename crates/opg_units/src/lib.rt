#![tactic(auto)]
// Pressures of the OPG (document 01, "OPG frames"): an f32 by its 32 bits, in each unit.
ghost use Rattle.std.specs.Prelude.{◌≡◌};
ghost use Rattle.opg_units.specs.Units.{finite, measurable, bits_in};

// Whether 32 bits are those of a finite f32.
#[tactic(auto, unfolding(crate::specs::Units::finite))]
pub fn is_finite(w: u32) -> bool
    ensures { result ≡ finite w }
{
    w / 0x800000 % 256 != 255
}

// Whether 32 bits are a pressure in mbar that the bench takes: finite, 0 to 2000, not negative zero.
#[tactic(auto, using(crate::proofs::Laws::bits_no_nan, crate::proofs::Laws::limit_literal), unfolding(crate::specs::Units::measurable))]
pub fn is_measurable(w: u32) -> bool
    ensures { result ≡ measurable w }
{
    is_finite(w) && w < 0x80000000 && f32::from_bits(w) <= 2000.0
}

// A pressure in mbar as it is sent in a unit: 2 Torr, 3 Pascal, 4 micron, any other mbar. Each product rounds once; in mbar it is
// the stored bits. Bits that are not finite are sent as they are.
#[tactic(auto, using(crate::proofs::Laws::bits_no_nan, crate::proofs::Laws::product_no_nan, crate::proofs::Laws::torr_literal, crate::proofs::Laws::pascal_literal, crate::proofs::Laws::micron_literal), unfolding(crate::specs::Units::bits_in, crate::specs::Units::product, buffer::specs::First::pick))]
pub fn in_unit(unit: u8, w: u32) -> u32
    ensures { result ≡ bits_in unit w }
{
    if !is_finite(w) {
        return w;
    }
    let mbar = f32::from_bits(w);
    match unit {
        2 => (mbar * 0.75006168).to_bits(),
        3 => (mbar * 100.0).to_bits(),
        4 => (mbar * 750.06168).to_bits(),
        _ => w,
    }
}
