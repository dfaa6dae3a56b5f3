// The lines of a map, printed one behind the other into a lent slice.
ghost use Rattle.std.specs.Prelude.{◌≡◌, [], ◌∷◌, ◌++◌, ◌<◌};
ghost use Rattle.rules.specs.Lines as rules;
ghost use Rattle.printing.specs.Printed.{Room, Printed};
ghost use Rattle.printing.specs.Columns as columns;

use crate::row::EntryRow;

// What a line of one or two numbers tells.
#[derive(Clone, Copy)]
pub enum Kind {
    Block,
    Way,
    Reference,
    Table,
    SetAside,
}

impl Kind {
    fn letter(self) -> u8
        ensures { result ≡ columns.letter self }
    {
        match self {
            Kind::Block => b'B',
            Kind::Way => b'C',
            Kind::Reference => b'X',
            Kind::Table => b'J',
            Kind::SetAside => b'N',
        }
    }
}

#[tactic(auto, using(crate::proofs::Digits::digit_low, crate::proofs::Digits::digit_high))]
fn digit(d: u64) -> u8
    requires { d < 16 }
    ensures { result ≡ rules.digit d }
{
    let d = d as u8;
    if d < 10 { b'0' + d } else { b'A' + (d - 10) }
}

fn flag(b: bool) -> u8
    ensures { result ≡ rules.flag b }
{
    b'0' + u8::from(b)
}

// What is printed so far: the first bytes of the lent slice.
#[derive(Drop)]
pub struct Text<'a> {
    out: &'a mut [u8],
    len: usize,
}

impl<'a> Text<'a> {
    pub fn new(out: &'a mut [u8]) -> Text<'a>
        ensures same_reference { result.out.ghost_name ≡ out.entry.ghost_name }
        ensures lent { result.out.now ≡ out.old }
        ensures empty { result.len ≡ 0 }
    {
        Text { out, len: 0 }
    }

    pub fn len(&self) -> usize
        ensures { result ≡ self.now.len }
    {
        self.len
    }

    fn put(&mut self, bytes: &[u8])
        requires { Room bytes.now self.old }
        ensures { Printed bytes.now self.old self.new }
    {
        let end = self.len + bytes.len();
        self.out[self.len..end].copy_from_slice(bytes);
        self.len = end;
    }

    // ---- numbers

    // A space and the lowest eight digits of a number.
    fn put_number(&mut self, x: u64)
        requires { Room (32 ∷ rules.hex 8 x) self.old }
        ensures { Printed (32 ∷ rules.hex 8 x) self.old self.new }
    {
        let mut row = [b' '; 9];
        let mut left = x;
        for place in (1..9).rev() {
            row[place] = digit(left % 16);
            left /= 16;
        }
        self.put(&row);
    }

    // A space and an address.
    fn put_address(&mut self, key: u64)
        requires { Room (32 ∷ rules.address key) self.old }
        ensures { Printed (32 ∷ rules.address key) self.old self.new }
    {
        self.put_number(key % 0x1_0000_0000);
    }

    // A space and an address, or a dash for none.
    #[tactic(auto, using(crate::proofs::Digits::dash, crate::proofs::Digits::no_dash))]
    fn put_address_or_dash(&mut self, key: u64)
        requires { Room (32 ∷ rules.address_or_dash key) self.old }
        ensures { Printed (32 ∷ rules.address_or_dash key) self.old self.new }
    {
        match key {
            0 => self.put(b" -"),
            _ => self.put_address(key),
        }
    }

    // ---- lines of one or two numbers

    // The letter and the first address.
    #[tactic(auto, using(crate::proofs::Printing::printed_then, crate::proofs::Printing::room_first, crate::proofs::Printing::room_next))]
    fn put_tagged(&mut self, letter: u8, key: u64)
        requires { Room (columns.tagged letter key) self.old }
        ensures { Printed (columns.tagged letter key) self.old self.new }
    {
        self.put(&[letter]);
        self.put_address(key);
    }

    // The second number, of the kinds that have one.
    fn put_second(&mut self, kind: Kind, second: u64)
        requires { Room (columns.second kind second) self.old }
        ensures { Printed (columns.second kind second) self.old self.new }
    {
        match kind {
            Kind::Block => self.put_address_or_dash(second),
            Kind::Way => self.put_address(second),
            Kind::Table => self.put_number(second),
            Kind::Reference | Kind::SetAside => {}
        }
    }

    #[tactic(auto, using(crate::proofs::Printing::printed_then, crate::proofs::Printing::room_first, crate::proofs::Printing::room_next))]
    pub fn put_line(&mut self, kind: Kind, first: u64, second: u64)
        requires { Room (columns.line kind first second) self.old }
        ensures { Printed (columns.line kind first second) self.old self.new }
    {
        self.put_tagged(kind.letter(), first);
        self.put_second(kind, second);
        self.put(b"\n");
    }

    // A line for each row of two columns.
    pub fn put_lines(&mut self, kind: Kind, firsts: &[u64], seconds: &[u64])
        requires { Room (columns.lines kind firsts.now seconds.now) self.old }
        ensures { Printed (columns.lines kind firsts.now seconds.now) self.old self.new }
    {
        for (first, second) in firsts.iter().zip(seconds) {
            self.put_line(kind, *first, *second);
        }
    }

    // ---- the line of a function, and the first line

    fn put_flags(&mut self, conditional_blr: bool, rfi: bool, r1_load: bool)
        requires { Room (columns.flags conditional_blr rfi r1_load) self.old }
        ensures { Printed (columns.flags conditional_blr rfi r1_load) self.old self.new }
    {
        self.put(&[b' ', flag(conditional_blr), flag(rfi), flag(r1_load), b'\n']);
    }

    // A function: entry, end, prologue and epilogue, and whether it has a conditional `blr`, an `rfi`, a load of r1.
    #[tactic(auto, using(crate::proofs::Printing::printed_then, crate::proofs::Printing::room_first, crate::proofs::Printing::room_next))]
    pub fn put_function_line(&mut self, function: &EntryRow)
        requires { Room (columns.function_line function.now) self.old }
        ensures { Printed (columns.function_line function.now) self.old self.new }
    {
        self.put_tagged(b'F', function.entry);
        self.put_address(function.end);
        self.put_address_or_dash(function.prologue);
        self.put_address_or_dash(function.epilogue);
        self.put_flags(
            function.has_conditional_blr(),
            function.has_rfi(),
            function.has_r1_load(),
        );
    }

    // R and a number of two decimal digits.
    pub fn put_answer(&mut self, answer: u32)
        requires number { answer < 100 }
        requires room { Room (rules.line_R answer ++ (10 ∷ [])) self.old }
        ensures { Printed (rules.line_R answer ++ (10 ∷ [])) self.old self.new }
    {
        let tens = b'0' + (answer / 10) as u8;
        let ones = b'0' + (answer % 10) as u8;
        self.put(&[b'R', b' ', tens, ones, b'\n']);
    }
}
