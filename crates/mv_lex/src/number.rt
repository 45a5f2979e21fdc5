ghost use Rattle.std.specs.Prelude.{◌≡◌, ◌≤◌, length, None, Some, if◌then◌else◌};
ghost use Rattle.std.specs.Char.{is_ascii_digit};
ghost use Rattle.std.specs.Str.Parse.{digits_value};
ghost use Rattle.std.specs.List.{list_all};

/// The most digits that `decimal` reads.
const MAX_DIGITS: usize = 20;

/// The number that at most twenty digits say, or None where another byte stands among them.
pub fn decimal(digits: &[u8]) -> Option<u128>
    requires { length digits.now ≤ MAX_DIGITS }
    ensures { result
        ≡ (if list_all is_ascii_digit digits.now then Some (digits_value 10 digits.now) else None) }
{
    let mut number = 0;
    for byte in digits {
        if !byte.is_ascii_digit() {
            return None;
        }
        number = number * 10 + u128::from(*byte - b'0');
    }
    Some(number)
}
