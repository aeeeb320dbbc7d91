ghost use Rattle.std.specs.Prelude.{◌≡◌};
ghost use Rattle.baud.specs.Setting.{divisor_of};
ghost use Rattle.baud.specs.Rate.{thousandths};

use crate::setting::Setting;

// The rate that a setting really gives, in thousandths of a baud.
pub(crate) fn real_rate(clock: u32, s: Setting) -> u64
    ensures { result ≡ thousandths clock (divisor_of s) }
{
    let d = s.divisor();
    (2000 * clock as u64 + d) / (2 * d)
}
