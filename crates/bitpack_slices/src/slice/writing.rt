//! Writes slices.
//! FORMAT.md, "Chunks".

ghost use Rattle.std.specs.Prelude.{◌≡◌, ◌%◌, ◌<◌, ◌≤◌, length, map};
ghost use Rattle.bitpack_slices.specs.Bodies.{IsRising, slice};
ghost use Rattle.bitpack_slices.specs.Slices.{slice_len};

/// Writes the slice of the lowest bytes of ids, which increase.
pub fn write_slice(ids: &[u32], out: &mut [u8])
    requires rising { IsRising 0 256 (map (λ id. id % 256) ids.now) }
    requires size { length out.old ≡ slice_len (length ids.now) }
    ensures { out.new ≡ slice (map (λ id. id % 256) ids.now) }
{
    if ids.len() < 32 {
        copy_lows(ids, out);
    } else if ids.len() < 256 {
        set_bits(ids, out);
    }
}

/// Copies the lowest byte of each id.
#[inline(always)]
pub fn copy_lows(ids: &[u32], out: &mut [u8])
    requires { length out.old ≡ length ids.now }
    ensures { out.new ≡ map (λ id. id % 256) ids.now }
{
    for index in 0..ids.len() {
        out[index] = (ids[index] % 256) as u8;
    }
}

/// Sets the bits of the lowest bytes of ids, which increase.
fn set_bits(ids: &[u32], out: &mut [u8])
    requires rising { IsRising 0 256 (map (λ id. id % 256) ids.now) }
    requires count { (32 ≤ length ids.now) × (length ids.now < 256) }
    requires size { length out.old ≡ 32 }
    ensures { out.new ≡ slice (map (λ id. id % 256) ids.now) }
{
    let mut bytes = [0; 32];
    for index in 0..ids.len() {
        let number = (ids[index] % 256) as u8;
        bytes[(number / 8) as usize] += 1 << (number % 8);
    }
    out.copy_from_slice(&bytes);
}
