// The short-month choice of a caller that names none. Which one it is stands here and in its definition alone.
ghost use Rattle.std.specs.Prelude.{◌≡◌};
ghost use Rattle.falls.specs.Falls.{default_choice};

use crate::types::ShortMonth;

pub fn default_choice() -> ShortMonth
    ensures { result ≡ default_choice }
{
    ShortMonth::Last
}

impl Default for ShortMonth {
    ghost is_default = { λ c. c ≡ default_choice };

    fn default() -> ShortMonth {
        default_choice()
    }
}
