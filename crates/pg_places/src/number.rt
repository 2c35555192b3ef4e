// The numbers of levels.
ghost use Rattle.std.specs.Prelude.{◌≡◌, ◌<◌, ◌^◌, ◌-◌, min, option_map};
ghost use Rattle.pg_base.specs.Tokens.{word};
ghost use Rattle.pg_faults.specs.View.{found};
ghost use Rattle.pg_gametext.specs.Checks.{digits_value, number_faults};
ghost use Rattle.pg_gametext.specs.Faults as text;

use pg_base::Token;
use pg_faults::{Fault, Kind};

/// The fault of a number that isn't the expected one. Takes time linear in the number's digits.
pub(crate) fn number_fault(expected: u32, number: Option<&Token<'_>>) -> Option<Fault>
    requires { expected < 2 ^ 32 - 1 }
    ensures { found result ≡ text.least (number_faults expected (option_map (λ t. word t.now) number.entry)) }
{
    match number {
        Some(token) if value_of(token.text.as_bytes()) != expected => Some(Fault {
            at: token.at,
            kind: Kind::LevelGap(expected),
        }),
        _ => None,
    }
}

/// What digits mean, or the greatest number where they mean more.
fn value_of(digits: &[u8]) -> u32
    ensures { result ≡ min (digits_value 0 digits.now) (2 ^ 32 - 1) }
{
    let mut value: u32 = 0;
    for digit in digits {
        value = value
            .saturating_mul(10)
            .saturating_add(u32::from(digit.saturating_sub(b'0')));
    }
    value
}
