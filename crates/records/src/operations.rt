//! The operations of the input.
ghost use Rattle.std.specs.Prelude.{◌≡◌, ◌+◌, ◌-◌, ◌*◌, ◌%◌, ◌^◌, ◌≤◌, ◌<◌};

/// No count is higher.
const MOST: u64 = 1000;

/// So many numbers have fifteen digits or fewer.
const FIFTEEN_DIGITS: u64 = 0x1000_0000_0000_0000;

/// What a line asks for.
#[derive(Clone, Copy, Debug, PartialEq, Eq)]
pub enum Operation {
    Mark(u64),
    Cut(u64),
    Row(u64, u64),
    Blocks(usize),
    Empty,
    Push(u64),
    Pop,
    Pending(usize),
}

/// A count, or the highest.
fn count_of(number: u64) -> usize
    ensures { result ≤ MOST }
{
    number.min(MOST) as usize
}

/// The value of a digit. What is no digit, as a capital, counts as 0.
fn digit(byte: u8) -> u64
    ensures figure { byte < 58 → result ≡ byte - 48 }
    ensures between { 58 ≤ byte → byte < 97 → result ≡ 0 }
    ensures letter { 97 ≤ byte → byte < 103 → result ≡ byte - 87 }
    ensures above { 103 ≤ byte → result ≡ 0 }
{
    match byte {
        b'0'..=b'9' => u64::from(byte - b'0'),
        b'a'..=b'f' => u64::from(byte - b'a') + 10,
        _ => 0,
    }
}

/// A number with one more digit, of which the last sixteen count.
fn with_digit(number: u64, digit: u64) -> u64
    requires { digit < 16 }
    ensures { result ≡ (number * 16 + digit) % 2 ^ 64 }
{
    number % FIFTEEN_DIGITS * 16 + digit
}

/// What the next byte of a line is part of.
#[derive(Clone, Copy)]
enum Place {
    Letter,
    BehindLetter,
    First,
    Second,
}

/// What is read of a line: its letter, and two numbers, which are 0 where they are missing.
#[derive(Clone, Copy)]
pub struct Line {
    place: Place,
    letter: u8,
    first: u64,
    second: u64,
}

impl Line {
    /// Nothing is read.
    pub fn new() -> Line {
        Line {
            place: Place::Letter,
            letter: 0,
            first: 0,
            second: 0,
        }
    }

    /// One more byte, which does not end the line. The letter is the first that is not 0. A space begins a number, and a third one is part
    /// of the second.
    pub fn read(&mut self, byte: u8) {
        match (self.place, byte) {
            (Place::Letter, 0) => {}
            (Place::Letter, letter) => {
                self.letter = letter;
                self.place = Place::BehindLetter;
            }
            (Place::BehindLetter, b' ') => self.place = Place::First,
            (Place::BehindLetter, _) => {}
            (Place::First, b' ') => self.place = Place::Second,
            (Place::First, byte) => self.first = with_digit(self.first, digit(byte)),
            (Place::Second, b' ') => {}
            (Place::Second, byte) => self.second = with_digit(self.second, digit(byte)),
        }
    }

    /// What the line asks for, if it asks for anything.
    pub fn operation(&self) -> Option<Operation> {
        match self.letter {
            b'm' => Some(Operation::Mark(self.first)),
            b'c' => Some(Operation::Cut(self.first)),
            b'r' => Some(Operation::Row(self.first, self.second)),
            b'n' => Some(Operation::Blocks(count_of(self.first))),
            b'z' => Some(Operation::Empty),
            b'p' => Some(Operation::Push(self.first)),
            b'o' => Some(Operation::Pop),
            b'q' => Some(Operation::Pending(count_of(self.first))),
            _ => None,
        }
    }
}
