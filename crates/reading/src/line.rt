// One line, without its newline, as a frame.
ghost use Rattle.std.specs.Prelude.{◌≡◌, ◌+◌, ◌<◌, ◌≤◌, length, IfSome};
ghost use Rattle.std.specs.List.{list_all};
ghost use Rattle.reading.specs.Frames as lines;
ghost use Rattle.reading.specs.Digits as digits;
ghost use Rattle.reading.specs.Kinds as kinds;

// What a line says: the numbers of its frame, in the line's order.
#[derive(Clone, Copy)]
pub enum Frame {
    Section(u32, u32, u32),
    Word(u32),
    CodeWord(u32, u32, u32),
    Target(u32),
    Table(u32, u32),
    Branch(u32, u32, u32),
    Function(u32, u32, u32),
    Object(u32, u32, u32),
    Skip(u32, u32),
    Entry(u32),
}

// What a line may be, by the number that it begins with; a word of a code section, with its outcome, is a kind of its own.
#[derive(Clone, Copy)]
enum Kind {
    Section,
    Word,
    CodeWord,
    Target,
    Table,
    Branch,
    Function,
    Object,
    Skip,
    Entry,
}

impl Kind {
    // Whether a frame of this kind may have these numbers.
    fn allows(self, first: u32, second: u32, third: u32) -> bool
        ensures { result ≡ kinds.allows self first second third }
    {
        match self {
            Kind::Section => (1 <= first) & (first <= 4),
            Kind::CodeWord => (second <= 6) & (third <= 1),
            Kind::Branch => (first <= 1) & (second <= 2),
            Kind::Function | Kind::Object => third <= 1,
            Kind::Word | Kind::Target | Kind::Table | Kind::Skip | Kind::Entry => true,
        }
    }

    // The frame of these numbers, in the line's order.
    fn frame(self, first: u32, second: u32, third: u32) -> Frame
        ensures { result ≡ kinds.frame self first second third }
    {
        match self {
            Kind::Section => Frame::Section(first, second, third),
            Kind::Word => Frame::Word(first),
            Kind::CodeWord => Frame::CodeWord(first, second, third),
            Kind::Target => Frame::Target(first),
            Kind::Table => Frame::Table(first, second),
            Kind::Branch => Frame::Branch(first, second, third),
            Kind::Function => Frame::Function(first, second, third),
            Kind::Object => Frame::Object(first, second, third),
            Kind::Skip => Frame::Skip(first, second),
            Kind::Entry => Frame::Entry(first),
        }
    }
}

// What a digit of either case stands for, if it is one.
fn digit(byte: u8) -> Option<u32>
    ensures value { result ≡ digits.digit byte }
    ensures small { IfSome result (λ d. d < 16) }
{
    match byte {
        b'0'..=b'9' => Some(u32::from(byte - b'0')),
        b'A'..=b'F' => Some(u32::from(byte - b'A' + 10)),
        b'a'..=b'f' => Some(u32::from(byte - b'a' + 10)),
        _ => None,
    }
}

// Whether each byte is a digit.
fn are_digits(line: &[u8]) -> bool
    ensures { result ≡ list_all digits.is_digit line.now }
{
    line.iter().all(|byte| digit(*byte).is_some())
}

// The number that digits stand for.
fn value_of(line: &[u8]) -> u32
    requires { length line.now ≤ 8 }
    ensures { result ≡ digits.hex_value line.now }
{
    let mut value = 0;
    for byte in line {
        value = value * 16 + digit(*byte).unwrap_or(0);
    }
    value
}

/// The number that `count` digits stand for, from a place on.
pub fn hex(line: &[u8], from: usize, count: usize) -> u32
    requires { (from + count ≤ length line.now) × (count ≤ 8) }
    ensures { result ≡ lines.number line.now from count }
{
    value_of(&line[from..from + count])
}

// A frame of this kind, its three numbers of so many digits each; one of no digits is 0.
fn of_digits(line: &[u8], kind: Kind, a: usize, b: usize, c: usize) -> Option<Frame>
    requires { (a ≤ 8) × (b ≤ 8) × (c ≤ 8) }
    ensures { result ≡ kinds.of_digits kind a b c line.now }
{
    if line.len() != 2 + a + b + c {
        return None;
    }
    let first = hex(line, 2, a);
    let second = hex(line, 2 + a, b);
    let third = hex(line, 2 + a + b, c);
    if kind.allows(first, second, third) {
        Some(kind.frame(first, second, third))
    } else {
        None
    }
}

// The line's frame, by the number that it begins with.
fn tagged(line: &[u8], tag: u32) -> Option<Frame>
    ensures { result ≡ lines.tagged tag line.now }
{
    match tag {
        1 => of_digits(line, Kind::Section, 2, 8, 8),
        2 if line.len() == 10 => of_digits(line, Kind::Word, 8, 0, 0),
        2 => of_digits(line, Kind::CodeWord, 8, 2, 2),
        3 => of_digits(line, Kind::Target, 8, 0, 0),
        4 => of_digits(line, Kind::Table, 8, 8, 0),
        5 => of_digits(line, Kind::Branch, 2, 2, 8),
        6 => of_digits(line, Kind::Function, 8, 8, 2),
        7 => of_digits(line, Kind::Object, 8, 8, 2),
        8 => of_digits(line, Kind::Skip, 8, 8, 0),
        9 => of_digits(line, Kind::Entry, 8, 0, 0),
        _ => None,
    }
}

// The frame that a line of any length is, if it is one.
pub fn read_frame(line: &[u8]) -> Option<Frame>
    ensures { result ≡ lines.read_frame line.now }
{
    if line.len() < 2 || !are_digits(line) {
        return None;
    }
    tagged(line, hex(line, 0, 2))
}
