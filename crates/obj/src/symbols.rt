// Function and object symbols: what check 3 asks of them, and the symbol at or around an address.
ghost use Rattle.std.specs.Prelude.{◌≡◌, ◌%◌, Bool, length, map};
ghost use Rattle.rules.specs.Ordered.{self as own, Rising};
ghost use Rattle.rules.specs.Given.{SymbolRow};
ghost use Rattle.rules.specs.Check as rules;
ghost use Rattle.rules.specs.Image as images;
ghost use Rattle.rules.specs.Step.{Around, symbol_over};
ghost use Rattle.obj_image.specs.Lent.{Lent, rows, symbol_row, image, seen};
ghost use Rattle.obj.specs.Sections.{Few, IsCode};
ghost use Rattle.obj_rows.specs.Symbols.{symbol_of, read_symbol, addresses};

use crate::sections::{Code, code_section, locate, wide};
pub use obj_rows::symbols::{Symbol, known_size};
use obj_rows::symbols::{count_below, is_symbol, symbols_ascend};

// Whether an address lies in the code section.
pub fn is_code_address(sections: &[u32], a: u32) -> bool
    requires { Few sections.now }
    ensures { result ≡ images.contains (images.code_section (seen sections.now)) a }
{
    let code = code_section(sections);
    (code.base <= a) & (wide(a) < wide(code.base) + wide(code.size))
}

// Function symbols lie in code, their sizes are multiples of 4.
fn is_function_symbol(sections: &[u32], symbol: Symbol) -> bool
    requires { Few sections.now }
    ensures { result ≡ rules.is_function_symbol (seen sections.now) (symbol_of symbol) }
{
    is_symbol(symbol) & is_code_address(sections, symbol.address) & (symbol.size % 4 == 0)
}

// Object symbols lie inside another section.
fn is_object_symbol(sections: &[u32], symbol: Symbol) -> bool
    requires { Few sections.now }
    ensures { result ≡ rules.is_object_symbol (seen sections.now) (symbol_of symbol) }
{
    let k = locate(sections, symbol.address);
    is_symbol(symbol) & (k != 0) & (k / 0x1_0000_0000 != code_section(sections).number)
}

// Each symbol of a list passes a test, which is p of its row.
fn all_symbols<F: Fn(Symbol) -> bool>(symbols: &[[u32; 3]], test: F) -> bool
    requires { F.IsAlwaysCallable test }
    ensures { (p : SymbolRow → Bool) →
        ((s : Symbol) (b : Bool) → F.post test s b → b ≡ p (symbol_of s)) →
        result ≡ rules.all p (map read_symbol symbols.now) }
{
    symbols.iter().map(Symbol::from).all(test)
}

// At most 1,024 function symbols.
pub fn are_functions(sections: &[u32], functions: &[u32]) -> bool
    requires { Few sections.now }
    ensures { result ≡ rules.are_symbols (seen sections.now) (rules.is_function_symbol (seen sections.now))
        (rows 3 symbol_row functions.now) }
{
    let (functions, []) = functions.as_chunks::<3>() else {
        return false;
    };
    (functions.len() <= 1024)
        & all_symbols(functions, |symbol| is_function_symbol(sections, symbol))
        & symbols_ascend(sections, functions)
}

// At most 1,024 object symbols.
pub fn are_objects(sections: &[u32], objects: &[u32]) -> bool
    requires { Few sections.now }
    ensures { result ≡ rules.are_symbols (seen sections.now) (rules.is_object_symbol (seen sections.now))
        (rows 3 symbol_row objects.now) }
{
    let (objects, []) = objects.as_chunks::<3>() else {
        return false;
    };
    (objects.len() <= 1024)
        & all_symbols(objects, |symbol| is_object_symbol(sections, symbol))
        & symbols_ascend(sections, objects)
}

// The last function symbol below an address of code, if its size covers the address; 0 for none.
pub fn symbol_over(functions: &[u32], code: Code, target: u64) -> u64
    requires { (length functions.now % 3 ≡ 0) × Rising own (addresses functions.now) }
    ensures { (l : Lent) (e : Around) →
        l.functions ≡ functions.now →
        IsCode l code →
        e.image ≡ image l →
        result ≡ symbol_over e target }
{
    if target / 0x1_0000_0000 != code.number {
        return 0;
    }
    let (functions, _) = functions.as_chunks::<3>();
    let low = target % 0x1_0000_0000;
    let Some(last) = count_below(functions, low as u32).checked_sub(1) else {
        return 0;
    };
    let s = Symbol::from(&functions[last]);
    if low < wide(s.address) + wide(s.size) {
        target - low + wide(s.address)
    } else {
        0
    }
}
