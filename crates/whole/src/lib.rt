// Whole numbers on the machine: the few operations on signed numbers that every other crate calls.
// None wraps, none can be undefined, and none demands anything of its caller.

#![tactic(auto)]

ghost use Rattle.std.specs.Prelude.{◌≡◌, ◌<◌, ◌≤◌, ◌^◌, pos, negsuc, nat_abs, ◌+ℤ◌, ◌-ℤ◌, ◌<ℤ◌};
ghost use Rattle.whole.specs.Euclid.{quotient, remainder};

// a + b, exact: the sum of two signed 32-bit numbers always fits 64 bits.
pub fn sum(a: i32, b: i32) -> i64
    ensures value { result ≡ a +ℤ b }
    ensures result_bound { nat_abs result ≤ 2 ^ 32 }
{
    a as i64 + b as i64
}

// a - b, exact.
pub fn difference(a: i32, b: i32) -> i64
    ensures value { result ≡ a -ℤ b }
    ensures result_bound { nat_abs result ≤ 2 ^ 32 }
{
    a as i64 - b as i64
}

// How far below -1 a negative number lies. Unlike the size of z it is never too large for 63 bits.
fn below(z: i64) -> u64
    requires { z <ℤ pos 0 }
    ensures z_value { z ≡ negsuc result }
    ensures upper_bound { result < 2 ^ 63 }
{
    (0 - (z + 1)) as u64
}

// |z|, also of the least number there is.
pub fn absolute(z: i64) -> u64
    ensures { result ≡ nat_abs z }
{
    if z < 0 { below(z) + 1 } else { z as u64 }
}

// Half of z, rounded down: of -3 it is -2.
pub fn half(z: i64) -> i64
    ensures { result ≡ quotient z 2 }
{
    z >> 1
}

// The remainder of z by m that is never negative; by 0 it is 0.
pub fn wrapped(z: i64, m: u32) -> u32
    ensures { result ≡ remainder z m }
{
    if m == 0 {
        return 0;
    }
    let divisor = m as u64;
    if z < 0 {
        let last = divisor - 1;
        (last - below(z) % divisor) as u32
    } else {
        (z as u64 % divisor) as u32
    }
}
