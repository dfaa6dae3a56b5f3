//! The lists of an image, and the lines that they are read from.
ghost use Rattle.std.specs.Prelude.{◌≡◌, ◌≤◌, ◌<◌, ◌+◌, ◌-◌, ◌*◌, ◌%◌, ◌↔◌, ◌∷◌, ◌++◌, [], true, false, length, take, drop, min};
ghost use Rattle.std.specs.Prelude.{None, Some, Err, IsOk, IfOk, OnOk};
ghost use Rattle.std.specs.List.{repeat};
ghost use Rattle.lines.specs.Lists.{Lends};

use crate::digits::{Number, value_of};
use std::alloc::{AllocError, AllocFailed};
use std::fmt;

/// Room for 65,537 outcomes, the longest symbol lists that can be told from too long ones, and the rest.
pub type Numbers = [u32; 400000];

const MOST_NUMBERS: usize = 400000;

/// Room for a code section of 65,537 words, and for tables.
pub type Bytes = [u8; 300000];

const MOST_BYTES: usize = 300000;

/// How many numbers there are where that is too many to tell.
const TOO_MANY: usize = 0x100_0000_0000;

/// The lists that are lent for an image.
#[derive(Clone, Copy, Debug)]
pub struct Image<'a> {
    pub sections: &'a [u32],
    pub bytes: &'a [u8],
    pub outcomes: &'a [u32],
    pub functions: &'a [u32],
    pub objects: &'a [u32],
    pub skips: &'a [u32],
    pub entry: &'a [u32],
    pub known: &'a [u32],
    pub walks: &'a [u32],
}

/// Why an image is not answered.
#[derive(Clone, Copy, Debug, PartialEq, Eq)]
pub enum Unread {
    Malformed,
    TooLong,
    /// what a caller says whose own memory gave out: the lists lie in lent arrays, so no image is unread for that
    OutOfMemory,
}

impl fmt::Display for Unread {
    fn fmt<W: fmt::Write>(&self, f: &mut fmt::Formatter<W>) -> fmt::Result {
        f.write_str(match self {
            Unread::Malformed => "?",
            Unread::TooLong => "!",
            Unread::OutOfMemory => "out of memory",
        })
    }
}

impl From<AllocError> for Unread {
    fn from(_error: AllocError) -> Unread
        ensures { result ≡ Unread.OutOfMemory }
    {
        Self::OutOfMemory
    }
}

impl<T: Drop> From<AllocFailed<T>> for Unread {
    fn from(_failed: AllocFailed<T>) -> Unread
        ensures { result ≡ Unread.OutOfMemory }
    {
        Unread::from(AllocError)
    }
}

/// A list of numbers.
#[derive(Clone, Copy, Debug, PartialEq, Eq)]
enum List {
    Sections,
    Outcomes,
    Functions,
    Objects,
    Skips,
    Entry,
    Known,
    Walks,
}

/// Where a list stands among the numbers: from one place up to another.
#[derive(Clone, Copy, Debug)]
struct Span {
    from: usize,
    to: usize,
}

impl Span {
    /// The elements there, as far as there are any.
    fn of<T>(self, items: &[T]) -> &[T]
        ensures { result.now ≡ drop self.from (take self.to items.now) }
    {
        let to = self.to.min(items.len());
        &items[self.from.min(to)..to]
    }
}

/// Where the lists of numbers stand.
#[derive(Clone, Copy, Debug)]
struct Spans {
    sections: Span,
    outcomes: Span,
    functions: Span,
    objects: Span,
    skips: Span,
    entry: Span,
    known: Span,
    walks: Span,
}

impl Spans {
    /// No list has numbers.
    fn new() -> Self {
        let none = Span { from: 0, to: 0 };
        Spans {
            sections: none,
            outcomes: none,
            functions: none,
            objects: none,
            skips: none,
            entry: none,
            known: none,
            walks: none,
        }
    }

    fn span_mut(&mut self, list: List) -> &mut Span {
        match list {
            List::Sections => &mut self.sections,
            List::Outcomes => &mut self.outcomes,
            List::Functions => &mut self.functions,
            List::Objects => &mut self.objects,
            List::Skips => &mut self.skips,
            List::Entry => &mut self.entry,
            List::Known => &mut self.known,
            List::Walks => &mut self.walks,
        }
    }
}

/// What a line holds, by its first letter.
#[derive(Clone, Copy, Debug, PartialEq, Eq)]
enum Kind {
    Remark,
    Numbers(List),
    Bytes,
    End,
}

impl TryFrom<u8> for Kind {
    type Error = Unread;

    fn try_from(letter: u8) -> Result<Self, Unread> {
        match letter {
            b'#' => Ok(Kind::Remark),
            b's' => Ok(Kind::Numbers(List::Sections)),
            b'o' => Ok(Kind::Numbers(List::Outcomes)),
            b'f' => Ok(Kind::Numbers(List::Functions)),
            b'j' => Ok(Kind::Numbers(List::Objects)),
            b'k' => Ok(Kind::Numbers(List::Skips)),
            b'e' => Ok(Kind::Numbers(List::Entry)),
            b'n' => Ok(Kind::Numbers(List::Known)),
            b'w' => Ok(Kind::Numbers(List::Walks)),
            b'b' => Ok(Kind::Bytes),
            b'=' => Ok(Kind::End),
            _ => Err(Unread::Malformed),
        }
    }
}

/// Where the next byte stands.
#[derive(Clone, Copy, Debug, PartialEq, Eq)]
enum Place {
    /// at a line's start
    Start,
    /// among the numbers of a line
    Numbers(List),
    /// in the count behind them
    NumbersCount(List),
    Bytes,
    BytesCount,
    Remark,
    /// behind `=`
    End,
    /// in a line that is not of the form
    Wrong,
    /// behind the image
    Ended,
}

/// An image that is read, byte by byte. The lists of numbers lie in one lent array, one behind the other, and the bytes in another.
#[derive(Debug, Drop)]
pub struct Reading {
    spans: Spans,
    place: Place,
    /// the number or count, or half of the byte, that is read
    number: Number,
    /// the list of the last line, if that is one of numbers
    list: Option<List>,
    /// how many numbers there are in all; those that there is no room for are counted on, but not kept
    numbers: usize,
    bytes: usize,
    /// how many numbers, or bytes, there were before the line
    before: usize,
    is_open: bool,
    is_malformed: bool,
    is_too_long: bool,
}

impl Reading {
    pub fn new() -> Self
        ensures closed { result.is_open ≡ false }
        ensures begun { result.place ≡ Place.Start }
        ensures well { (result.is_malformed ≡ false) × (result.is_too_long ≡ false) }
    {
        Reading {
            spans: Spans::new(),
            place: Place::Start,
            number: Number::new(),
            list: None,
            numbers: 0,
            bytes: 0,
            before: 0,
            is_open: false,
            is_malformed: false,
            is_too_long: false,
        }
    }

    /// Whether anything of the image was read.
    pub fn is_open(&self) -> bool
        ensures { result ≡ self.now.is_open }
    {
        self.is_open
    }

    /// Whether the line `=` was read.
    pub fn is_ended(&self) -> bool
        ensures { (result ≡ true) ↔ (self.now.place ≡ Place.Ended) }
    {
        self.place == Place::Ended
    }

    /// The image. A line that is not of the form comes before too many numbers or bytes.
    pub fn image<'a>(&self, numbers: &'a [u32], bytes: &'a [u8]) -> Result<Image<'a>, Unread>
        ensures malformed { self.now.is_malformed ≡ true → result ≡ Err Unread.Malformed }
        ensures too_long { self.now.is_malformed ≡ false → self.now.is_too_long ≡ true → result ≡ Err Unread.TooLong }
        ensures whole { self.now.is_malformed ≡ false → self.now.is_too_long ≡ false → IsOk result }
        ensures lists { IfOk result (Lends self.now numbers.now bytes.now) }
    {
        if self.is_malformed {
            return Err(Unread::Malformed);
        }
        if self.is_too_long {
            return Err(Unread::TooLong);
        }
        Ok(self.lists(numbers, bytes))
    }

    fn lists<'a>(&self, numbers: &'a [u32], bytes: &'a [u8]) -> Image<'a>
        ensures { Lends self.now numbers.now bytes.now result }
    {
        let spans = self.spans;
        Image {
            sections: spans.sections.of(numbers),
            bytes: &bytes[..self.bytes.min(bytes.len())],
            outcomes: spans.outcomes.of(numbers),
            functions: spans.functions.of(numbers),
            objects: spans.objects.of(numbers),
            skips: spans.skips.of(numbers),
            entry: spans.entry.of(numbers),
            known: spans.known.of(numbers),
            walks: spans.walks.of(numbers),
        }
    }

    // ---- a line of numbers

    /// A line of a list begins. One that does not stand with the list's others is refused.
    fn begin_numbers(&mut self, list: List) -> Result<Place, Unread>
        ensures { OnOk result (self.new.list ≡ Some list) }
    {
        if self.list != Some(list) {
            let span = self.spans.span_mut(list);
            if span.from < span.to {
                return Err(Unread::Malformed);
            }
            *span = Span {
                from: self.numbers,
                to: self.numbers,
            };
            self.list = Some(list);
        }
        self.before = self.numbers;
        Ok(Place::Numbers(list))
    }

    /// The number that was read, if there is one, is put behind the others.
    fn put_number(&mut self, numbers: &mut [u32])
        requires { length numbers.old ≡ 400000 }
        ensures few { self.old.numbers ≤ 400000 → self.new.numbers ≤ 400000 }
        ensures kept { 0 < self.old.number.digits → self.old.numbers < 400000
            → take self.new.numbers numbers.new ≡ take self.old.numbers numbers.old ++ self.old.number.value ∷ [] }
        ensures full { 0 < self.old.number.digits → 400000 ≤ self.old.numbers → self.new.is_too_long ≡ true }
    {
        let number = self.number;
        if number.digits > 0 {
            self.number = Number::new();
            if self.numbers < MOST_NUMBERS {
                numbers[self.numbers] = number.value;
                self.numbers += 1;
            } else {
                self.is_too_long = true;
            }
        }
    }

    /// A line's numbers come as often as its count says. Where there is no room for them none is put.
    fn repeat_numbers(&mut self, times: u32, numbers: &mut [u32])
        requires { length numbers.old ≡ 400000 }
        ensures repeated { self.new.numbers ≤ 400000
            → take self.new.numbers numbers.new ≡ take (min self.old.before self.old.numbers) numbers.old
            ++ repeat times (drop (min self.old.before self.old.numbers) (take self.old.numbers numbers.old)) }
        ensures full { 400000 < self.new.numbers → self.new.is_too_long ≡ true }
    {
        let start = self.before.min(self.numbers);
        let end = end_of(start, self.numbers, times);
        if end <= MOST_NUMBERS {
            repeat_from(start, self.numbers, times, numbers);
        } else {
            self.is_too_long = true;
        }
        self.numbers = end;
    }

    /// The list reaches as far as there are numbers.
    fn end_numbers(&mut self, list: List) -> Place {
        self.spans.span_mut(list).to = self.numbers;
        Place::Start
    }

    fn take_in_numbers(
        &mut self,
        list: List,
        byte: u8,
        numbers: &mut [u32],
    ) -> Result<Place, Unread>
        requires { length numbers.old ≡ 400000 }
    {
        match byte {
            b' ' => {
                self.put_number(numbers);
                Ok(Place::Numbers(list))
            }
            b'*' => {
                self.put_number(numbers);
                Ok(Place::NumbersCount(list))
            }
            b'\n' => {
                self.put_number(numbers);
                Ok(self.end_numbers(list))
            }
            digit => {
                self.take_digit(digit)?;
                Ok(Place::Numbers(list))
            }
        }
    }

    fn take_in_numbers_count(
        &mut self,
        list: List,
        byte: u8,
        numbers: &mut [u32],
    ) -> Result<Place, Unread>
        requires { length numbers.old ≡ 400000 }
    {
        if byte == b'\n' {
            let times = self.count()?;
            self.repeat_numbers(times, numbers);
            return Ok(self.end_numbers(list));
        }
        self.take_digit(byte)?;
        Ok(Place::NumbersCount(list))
    }

    // ---- a line of bytes

    fn begin_bytes(&mut self) -> Place
        ensures { self.new.list ≡ None }
    {
        self.list = None;
        self.before = self.bytes;
        Place::Bytes
    }

    fn put_byte(&mut self, byte: u8, bytes: &mut [u8])
        requires { length bytes.old ≡ 300000 }
        ensures few { self.old.bytes ≤ 300000 → self.new.bytes ≤ 300000 }
        ensures kept { self.old.bytes < 300000 → take self.new.bytes bytes.new ≡ take self.old.bytes bytes.old ++ byte ∷ [] }
        ensures full { 300000 ≤ self.old.bytes → self.new.is_too_long ≡ true }
    {
        if self.bytes < MOST_BYTES {
            bytes[self.bytes] = byte;
            self.bytes += 1;
        } else {
            self.is_too_long = true;
        }
    }

    /// A line's bytes come as often as its count says. Where there is no room for them none is put.
    fn repeat_bytes(&mut self, times: u32, bytes: &mut [u8])
        requires { length bytes.old ≡ 300000 }
        ensures few { self.old.bytes ≤ 300000 → self.new.bytes ≤ 300000 }
        ensures repeated { self.new.is_too_long ≡ false
            → take self.new.bytes bytes.new ≡ take (min self.old.before self.old.bytes) bytes.old
            ++ repeat times (drop (min self.old.before self.old.bytes) (take self.old.bytes bytes.old)) }
    {
        let start = self.before.min(self.bytes);
        let end = end_of(start, self.bytes, times);
        if end <= MOST_BYTES {
            repeat_from(start, self.bytes, times, bytes);
            self.bytes = end;
        } else {
            self.is_too_long = true;
        }
    }

    fn take_in_bytes(&mut self, byte: u8, bytes: &mut [u8]) -> Result<Place, Unread>
        requires { length bytes.old ≡ 300000 }
    {
        if let Some(digit) = value_of(byte) {
            if self.number.digits == 0 {
                self.take_digit(byte)?;
            } else {
                let high = (self.number.value % 16) as u8;
                self.number = Number::new();
                self.put_byte(high * 16 + digit, bytes);
            }
            return Ok(Place::Bytes);
        }
        // half a byte is none
        if self.number.digits > 0 {
            return Err(Unread::Malformed);
        }
        match byte {
            b' ' => Ok(Place::Bytes),
            b'*' => Ok(Place::BytesCount),
            b'\n' => Ok(Place::Start),
            _ => Err(Unread::Malformed),
        }
    }

    fn take_in_bytes_count(&mut self, byte: u8, bytes: &mut [u8]) -> Result<Place, Unread>
        requires { length bytes.old ≡ 300000 }
    {
        if byte == b'\n' {
            let times = self.count()?;
            self.repeat_bytes(times, bytes);
            return Ok(Place::Start);
        }
        self.take_digit(byte)?;
        Ok(Place::BytesCount)
    }

    // ---- any line

    fn take_digit(&mut self, byte: u8) -> Result<(), Unread>
        ensures { OnOk result ((self.new.number.digits ≡ self.old.number.digits + 1) × (self.new.number.digits ≤ 8)) }
    {
        let digit = value_of(byte).ok_or(Unread::Malformed)?;
        self.number = self.number.and(digit).ok_or(Unread::Malformed)?;
        Ok(())
    }

    /// The count that was read.
    fn count(&self) -> Result<u32, Unread>
        ensures { IfOk result (λ times. (0 < self.now.number.digits) × (times ≡ self.now.number.value)) }
    {
        if self.number.digits == 0 {
            return Err(Unread::Malformed);
        }
        Ok(self.number.value)
    }

    fn begin_line(&mut self, letter: u8) -> Result<Place, Unread> {
        self.is_open = true;
        self.number = Number::new();
        match Kind::try_from(letter)? {
            Kind::Remark => Ok(Place::Remark),
            Kind::Numbers(list) => self.begin_numbers(list),
            Kind::Bytes => Ok(self.begin_bytes()),
            Kind::End => Ok(Place::End),
        }
    }

    /// Where the byte leads.
    fn next_place(
        &mut self,
        byte: u8,
        numbers: &mut [u32],
        bytes: &mut [u8],
    ) -> Result<Place, Unread>
        requires numbers { length numbers.old ≡ 400000 }
        requires bytes { length bytes.old ≡ 300000 }
    {
        match self.place {
            Place::Start => self.begin_line(byte),
            Place::Numbers(list) => self.take_in_numbers(list, byte, numbers),
            Place::NumbersCount(list) => self.take_in_numbers_count(list, byte, numbers),
            Place::Bytes => self.take_in_bytes(byte, bytes),
            Place::BytesCount => self.take_in_bytes_count(byte, bytes),
            Place::Remark | Place::Wrong if byte == b'\n' => Ok(Place::Start),
            Place::End if byte == b'\n' => Ok(Place::Ended),
            Place::End => Err(Unread::Malformed),
            place => Ok(place),
        }
    }

    /// A byte of the image. The rest of a line that is not of the form is passed over.
    fn take(&mut self, byte: u8, numbers: &mut [u32], bytes: &mut [u8])
        requires numbers { length numbers.old ≡ 400000 }
        requires bytes { length bytes.old ≡ 300000 }
    {
        self.place = match self.next_place(byte, numbers, bytes) {
            Ok(place) => place,
            Err(_) => {
                self.is_malformed = true;
                if byte == b'\n' {
                    Place::Start
                } else {
                    Place::Wrong
                }
            }
        };
    }

    /// Bytes of the input, up to the image's end: how many.
    pub fn take_all(&mut self, input: &[u8], numbers: &mut [u32], bytes: &mut [u8]) -> usize
        requires numbers { length numbers.old ≡ 400000 }
        requires bytes { length bytes.old ≡ 300000 }
        ensures within { result ≤ length input.now }
        ensures all { result < length input.now → self.new.place ≡ Place.Ended }
    {
        for (index, byte) in input.iter().enumerate() {
            self.take(*byte, numbers, bytes);
            if self.is_ended() {
                return index + 1;
            }
        }
        input.len()
    }
}

/// How many elements there are once those from `start` up to `end` come so many times.
fn end_of(start: usize, end: usize, times: u32) -> usize
    requires { start ≤ end }
    ensures counted { end ≤ 400000 → result ≡ start + (end - start) * times }
    ensures many { 400000 < end → 400000 < result }
{
    if end > MOST_NUMBERS {
        return TOO_MANY;
    }
    start + (end - start) * times as usize
}

/// What stands from `start` up to `end` comes once more, from `at` on, for an odd number: how many elements there are then.
fn put_odd<T: Copy>(start: usize, end: usize, times: u32, at: usize, items: &mut [T]) -> usize
    requires order { start ≤ end }
    requires behind { end ≤ at }
    requires room { at + (end - start) * (times % 2) ≤ length items.old }
    ensures len { result ≡ at + (end - start) * (times % 2) }
    ensures items { take result items.new ≡ take at items.old ++ repeat (times % 2) (drop start (take end items.old)) }
    ensures line { take end items.new ≡ take end items.old }
{
    let is_odd = times % 2 == 1;
    if is_odd {
        items.copy_within(start..end, at);
        return at + (end - start);
    }
    at
}

/// What stands from `start` up to `end` comes as often as is asked for: how many elements there are then. It comes half as often, then that
/// twice, and once more for an odd number.
fn repeat_from<T: Copy>(start: usize, end: usize, times: u32, items: &mut [T]) -> usize
    requires order { start ≤ end }
    requires room { start + (end - start) * times ≤ length items.old }
    ensures len { result ≡ start + (end - start) * times }
    ensures items { take result items.new ≡ take start items.old ++ repeat times (drop start (take end items.old)) }
    ensures line { take end items.new ≡ take end items.old }
{
    match times {
        0 => start,
        1 => end,
        _ => {
            let half = repeat_from(start, end, times / 2, items);
            items.copy_within(start..half, half);
            put_odd(start, end, times, half + (half - start), items)
        }
    }
}
