//! Depths as fractions, followed from step to step without a division.

ghost use Rattle.std.specs.Prelude.{◌^◌, MatchOption, pos, ◌+ℤ◌, ◌<ℤ◌, ◌≤ℤ◌};
ghost use Rattle.hd_picture.specs.Limits.{IsWithin};
ghost use Rattle.hd_picture.specs.define.Depth.{floor_div};
ghost use Rattle.hd_picture.specs.inner.DepthFraction.{IsDepthFraction, IsDepthStep, IsNextFraction, IsRemainder};

/// The greatest distance from 0 of a quotient that `depth_fraction` answers.
const WHOLE_BOUND: i128 = 1 << 60;

/// A whole number of areas, and a remainder.
#[derive(Clone, Copy)]
pub struct DepthFraction {
    pub whole: i64,
    pub remainder: i64,
}

/// A sum divided by an area and rounded down, `None` where that is beyond 2^60.
pub fn depth_fraction(sum: i128, area: i64) -> Option<DepthFraction>
    requires sum { IsWithin (2 ^ 90) sum }
    requires area { pos 0 <ℤ area }
    ensures { MatchOption result (¬ (IsWithin (2 ^ 60) (floor_div sum area))) (IsDepthFraction sum area) }
{
    let divisor = i128::from(area);
    let whole = sum.div_euclid(divisor);
    if whole < -WHOLE_BOUND || WHOLE_BOUND < whole {
        return None;
    }
    Some(DepthFraction {
        whole: whole as i64,
        remainder: sum.rem_euclid(divisor) as i64,
    })
}

/// A change divided by an area, with the next whole number above the quotient, so that the remainder is below 0.
pub fn depth_step(change: i64, area: i64) -> DepthFraction
    requires change { IsWithin (2 ^ 54) change }
    requires area { pos 0 <ℤ area }
    ensures { IsDepthStep change area result }
{
    DepthFraction {
        whole: change.div_euclid(area) + 1,
        remainder: change.rem_euclid(area) - area,
    }
}

/// The fraction after one more step.
pub fn next_fraction(at: DepthFraction, step: DepthFraction, area: i64) -> DepthFraction
    requires area { area ≤ℤ pos (2 ^ 61) }
    requires at { IsRemainder area at.remainder }
    requires reach { IsWithin (2 ^ 62) at.whole }
    requires step { IsWithin (2 ^ 55) step.whole }
    requires lack { IsRemainder area (step.remainder +ℤ area) }
    ensures { IsNextFraction area at step result }
{
    // The step's whole is one above its quotient, and its remainder is below 0. Where the remainders add up to less than
    // 0, they make no whole, and that one is taken back.
    let remainder = at.remainder + step.remainder;
    if remainder < 0 {
        DepthFraction {
            whole: at.whole + step.whole - 1,
            remainder: remainder + area,
        }
    } else {
        DepthFraction {
            whole: at.whole + step.whole,
            remainder,
        }
    }
}
