//! Hexadecimal digits, in small letters.
ghost use Rattle.std.specs.Prelude.{◌≡◌, ◌≤◌, ◌<◌, ◌+◌, ◌*◌, ◌%◌, IfSome};

/// The value of a digit.
pub fn value_of(digit: u8) -> Option<u8>
    ensures { IfSome result (λ value. value < 16) }
{
    match digit {
        b'0'..=b'9' => Some(digit - b'0'),
        b'a'..=b'f' => Some(digit - b'a' + 10),
        _ => None,
    }
}

/// A number that is read digit by digit, of up to eight; 0 while it has none.
#[derive(Clone, Copy, Debug, PartialEq, Eq)]
pub struct Number {
    pub value: u32,
    pub digits: u32,
}

impl Number {
    pub fn new() -> Self
        ensures { result.digits ≡ 0 }
    {
        Number {
            value: 0,
            digits: 0,
        }
    }

    /// One more digit. A number of eight takes none.
    pub fn and(self, digit: u8) -> Option<Number>
        ensures few { IfSome result (λ number. number.digits ≤ 8) }
        ensures more { IfSome result (λ number. number.digits ≡ self.digits + 1) }
        ensures value { IfSome result (λ number. number.value ≡ self.value % 0x1000_0000 * 16 + digit % 16) }
    {
        if self.digits < 8 {
            Some(Number {
                value: self.value % 0x1000_0000 * 16 + u32::from(digit % 16),
                digits: self.digits + 1,
            })
        } else {
            None
        }
    }
}
