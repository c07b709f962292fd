// Coordinates round a map's centre: the signed arithmetic that tiles of a map need.

ghost use Rattle.std.specs.Prelude.{◌≡◌, ◌*◌, ◌≤◌, pos, nat_abs, ◌+ℤ◌, ◌-ℤ◌};
ghost use Rattle.hexes.specs.Limits.{coordinate_limit, radius_limit};
ghost use Rattle.storage.specs.Hexmod.{shift_of};

// z + (forth - back) in one coordinate.
pub(crate) fn moved(z: i32, forth: u32, back: u32) -> i32
    requires z_bound { nat_abs z ≤ coordinate_limit }
    requires forth_bound { forth ≤ shift_of radius_limit }
    requires back_bound { back ≤ shift_of radius_limit }
    ensures { result ≡ z +ℤ (pos forth -ℤ pos back) }
{
    z + (forth as i32 - back as i32)
}

// How far a coordinate lies from the map's least one: z - c + radius.
pub(crate) fn from_rim(z: i32, c: i32, radius: u32) -> u32
    requires c_bound { nat_abs (z -ℤ c) ≤ radius }
    requires radius_le_radius_limit { radius ≤ radius_limit }
    ensures result_value { pos result ≡ (z -ℤ c) +ℤ pos radius }
    ensures upper_bound { result ≤ 2 * radius }
{
    (whole::difference(z, c) + radius as i64) as u32
}
