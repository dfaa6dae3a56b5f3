// What is known of an image: its checks, and its parts by address. An image is handed in as lent lists of numbers:
//
//   list       numbers of a row
//   sections   kind, base, size, how many bytes of it are lent
//   bytes      (no rows) the bytes of all sections that have any, in the sections' order
//   outcomes   one row for each code word: kind, mark, and four more by kind:
//              jump: target, 0, 0, 0; jump table: address, size, 0, 0; list: way, address, way, address, with 0, 0 for no branch; else 0
//   functions  address, size, whether the size is known
//   objects    the same
//   skips      first address, first address past it
//   entry      address: no row, or one
//
// A way is 1 to an address, 2 to a table, 3 elsewhere, and 4 more with link. A row that is not whole breaks the rules of its list.
#![tactic(auto)]

pub mod checks;
pub mod outcomes;
pub mod sections;
pub mod skips;
pub mod symbols;
