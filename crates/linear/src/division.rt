// Signed division, rounded up.
ghost use Rattle.std.specs.Prelude.{◌≡◌, ◌<◌, true, pos, ◌+ℤ◌, ◌<ℤ◌, if◌then◌else◌};
ghost use lib.Signed.{lt_z};
ghost use Rattle.linear.specs.Division.{RoundedUp};

// The least integer that times the divisor is at least the dividend, which may be below zero.
pub fn div_up(dividend: i64, divisor: u32) -> i64
    requires { 0 < divisor }
    ensures { RoundedUp dividend (pos divisor) result }
{
    let divisor = i64::from(divisor);
    rounded(dividend / divisor, dividend % divisor)
}

// A quotient toward zero, rounded up: one more where something above zero is left.
fn rounded(quotient: i64, rest: i64) -> i64
    requires { lt_z (pos 0) rest ≡ true → quotient <ℤ pos 9223372036854775807 }
    ensures { result ≡ (if lt_z (pos 0) rest then quotient +ℤ pos 1 else quotient) }
{
    if rest > 0 { quotient + 1 } else { quotient }
}

#[cfg(test)]
mod tests {
    use super::*;

    #[test]
    fn rounds_toward_the_greater(rt: HostRuntime) {
        assert_eq!(rt; div_up(7, 2), 4);
        assert_eq!(rt; div_up(6, 2), 3);
        assert_eq!(rt; div_up(-7, 2), -3);
        assert_eq!(rt; div_up(-1, 1_000_000), 0);
        assert_eq!(rt; div_up(i64::MIN, 1), i64::MIN);
        assert_eq!(rt; div_up(i64::MAX, 2), 4_611_686_018_427_387_904);
    }
}
