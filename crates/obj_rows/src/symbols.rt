// Function and object symbols as rows: their order, and the symbol at or around an address.
ghost use Rattle.std.specs.Prelude.{◌≡◌, [], ◌∷◌, ◌+◌, ◌≤◌, length, drop, map};
ghost use Rattle.rules.specs.Ordered.{self as own, rank, Rising};
ghost use Rattle.rules.specs.Check as rules;
ghost use Rattle.rules.specs.JumpTable.{known_size};
ghost use Rattle.obj_image.specs.Lent.{Lent, rows, symbol_row, image, seen};
ghost use Rattle.obj_image.specs.Sections.{Few};
ghost use Rattle.obj_rows.specs.Symbols.{symbol_by, symbol_of, read_symbol, address_of, key_of, KeysAscend};

use obj_image::sections::locate;

// A symbol by value.
#[derive(Clone, Copy)]
pub struct Symbol {
    pub address: u32,
    pub size: u32,
    pub known: u32,
}

impl From<&[u32; 3]> for Symbol {
    ghost from_gives = { λ row symbol. symbol ≡ symbol_by row.now };

    fn from(row: &[u32; 3]) -> Symbol {
        let [address, size, known] = *row;
        Symbol {
            address,
            size,
            known,
        }
    }
}

// The symbol whose row begins at an index: the next one of the rows from there.
pub fn symbol_at(symbols: &[u32], at: usize) -> Symbol
    requires { at + 3 ≤ length symbols.now }
    ensures { rows 3 symbol_row (drop at symbols.now) ≡ symbol_of result ∷ rows 3 symbol_row
        (drop (at + 3) symbols.now) }
{
    Symbol {
        address: symbols[at],
        size: symbols[at + 1],
        known: symbols[at + 2],
    }
}

// Sizes are at most 262,144; a mark says if the size is known.
pub fn is_symbol(symbol: Symbol) -> bool
    ensures { result ≡ rules.is_symbol (seen []) (symbol_of symbol) }
{
    symbol.address % 4 == 0 && symbol.size <= 262144 && symbol.known <= 1
}

fn is_below(sections: &[u32], symbol: Symbol, other: Symbol) -> bool
    requires { Few sections.now }
    ensures { result ≡ rules.is_below (seen sections.now) (symbol_of symbol) (symbol_of other) }
{
    locate(sections, symbol.address) < locate(sections, other.address)
}

// Addresses ascend strictly, section first.
pub fn symbols_ascend(sections: &[u32], symbols: &[[u32; 3]]) -> bool
    requires { Few sections.now }
    ensures { result ≡ rules.chained (rules.is_below (seen sections.now))
        (map read_symbol symbols.now) }
{
    symbols.is_sorted_by(|row, next| is_below(sections, Symbol::from(row), Symbol::from(next)))
}

// How many object symbols have keys below a key.
fn keys_below(sections: &[u32], objects: &[[u32; 3]], key: u64) -> usize
    requires few { Few sections.now }
    requires rise { Rising own (map (key_of sections.now) objects.now) }
    ensures rank { result ≡ rank own key (map (key_of sections.now) objects.now) }
    ensures bound { result ≤ length objects.now }
{
    objects.partition_point(|row| locate(sections, Symbol::from(row).address) < key)
}

// The known size of the object symbol at an address; 0 for none. Symbols ascend by their keys, section first, so that only the first
// whose key is not below the address's own can lie there.
pub fn known_size(sections: &[u32], objects: &[u32], a: u32) -> u32
    requires few { Few sections.now }
    requires objects { KeysAscend sections.now objects.now }
    ensures { (l : Lent) → l.objects ≡ objects.now → result ≡ known_size a (image l).objects }
{
    let (objects, _) = objects.as_chunks::<3>();
    let at = keys_below(sections, objects, locate(sections, a));
    let Some(row) = objects.get(at) else {
        return 0;
    };
    let s = Symbol::from(row);
    if (s.address == a) & (s.known == 1) {
        s.size
    } else {
        0
    }
}

// How many function symbols lie below an address.
pub fn count_below(functions: &[[u32; 3]], a: u32) -> usize
    requires { Rising own (map address_of functions.now) }
    ensures rank { result ≡ rank own a (map address_of functions.now) }
    ensures bound { result ≤ length functions.now }
{
    functions.partition_point(|row| Symbol::from(row).address < a)
}
