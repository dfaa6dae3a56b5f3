// What an opcode says of its words: a small code for each, in two constant tables.
// A code's bits are 1: rD (or rS) names a register, 2: rA, 4: rA unless it is 0, 8: rB, 16: a branch. The codes are those of the
// rows of rules' Registers and of rules' is_branch.
ghost use Rattle.std.specs.Prelude.{◌≡◌, ◌*◌, ◌<◌, get_or};
ghost use Rattle.rules.specs.Registers as rules;
ghost use Rattle.rules.specs.Words as words;
ghost use Rattle.ppc.specs.Codes.{IsPrimary, IsCode, fields_of_code, low_register, digit, extended_codes, branch_bits};

use crate::fields::{bit, extended, field_ra, field_rb, field_rd, opcode};

// By primary opcode; 19 and 31 go on by extended opcode.
const PRIMARY: [u8; 64] = [
    0, // 0
    0, // 1
    0, // 2
    2, // 3 twi
    0, // 4
    0, // 5
    0, // 6
    3, // 7 mulli
    3, // 8 subfic
    0, // 9
    2, // 10 cmpli
    2, // 11 cmpi
    3, // 12 addic
    3, // 13 addic.
    5, // 14 addi
    5, // 15 addis
    16, // 16 bc
    0, // 17
    16, // 18 b
    0, // 19 by extended opcode
    3, // 20 rlwimi
    3, // 21 rlwinm
    0, // 22
    11, // 23 rlwnm
    3, // 24 ori
    3, // 25 oris
    3, // 26 xori
    3, // 27 xoris
    3, // 28 andi.
    3, // 29 andis.
    0, // 30
    0, // 31 by extended opcode
    5, // 32 lwz
    3, // 33 lwzu
    5, // 34 lbz
    3, // 35 lbzu
    5, // 36 stw
    3, // 37 stwu
    5, // 38 stb
    3, // 39 stbu
    5, // 40 lhz
    3, // 41 lhzu
    5, // 42 lha
    3, // 43 lhau
    5, // 44 sth
    3, // 45 sthu
    5, // 46 lmw
    5, // 47 stmw
    4, // 48 lfs
    2, // 49 lfsu
    4, // 50 lfd
    2, // 51 lfdu
    4, // 52 stfs
    2, // 53 stfsu
    4, // 54 stfd
    2, // 55 stfdu
    0, // 56
    0, // 57
    0, // 58
    0, // 59
    0, // 60
    0, // 61
    0, // 62
    0, // 63
];

// By extended opcode under 31: the four lowest bits of a code, sixteen to a number, the first in its lowest digit. (A constant table is
// laid out anew at each call, so this one is packed.)
const EXTENDED: [u64; 64] = [
    0x0000_BB0B_000A_000A, // 0
    0x000B_030B_D00D_1000, // 16
    0x0000_000B_0000_000A, // 32
    0x000B_0000_BC00_0000, // 48
    0x0000_B000_0000_0000, // 64
    0x0000_0000_DC00_1000, // 80
    0x0000_0003_0000_0000, // 96
    0x000B_0000_B000_0000, // 112
    0x0000_0B0B_0000_0000, // 128
    0x0000_0000_DD00_0101, // 144
    0x0000_0000_0000_0000, // 160
    0x0000_0000_B000_0000, // 176
    0x0000_0303_0000_0000, // 192
    0x0000_0000_D000_0100, // 208
    0x0000_B303_0000_0000, // 224
    0x0000_0000_BC00_0900, // 240
    0x0000_0B00_0000_0000, // 256
    0x000B_0000_DC00_0000, // 272
    0x0000_0000_0000_0000, // 288
    0x000B_0000_BD00_0800, // 304
    0x0000_0000_0000_0000, // 320
    0x0000_0000_D000_1000, // 336
    0x0000_0000_0000_0000, // 352
    0x0000_0000_B000_1000, // 368
    0x0000_0000_0000_0000, // 384
    0x000B_0000_D000_0000, // 400
    0x0000_0000_0000_0000, // 416
    0x000B_0000_BD00_0000, // 432
    0x0000_B000_0000_0000, // 448
    0x000B_0000_0C00_1000, // 464
    0x0000_B000_0000_0000, // 480
    0x0000_0000_0000_0000, // 496
    0x0000_BB0B_0000_0000, // 512
    0x0000_000B_CDD0_0000, // 528
    0x0000_000B_0000_0000, // 544
    0x0000_0000_A000_0000, // 560
    0x0000_B000_0000_0000, // 576
    0x0000_0000_C050_1000, // 592
    0x0000_0003_0000_0000, // 608
    0x0000_0000_A000_0000, // 624
    0x0000_0B0B_0000_0000, // 640
    0x0000_0000_CDD0_9000, // 656
    0x0000_0000_0000_0000, // 672
    0x0000_0000_A000_0000, // 688
    0x0000_0303_0000_0000, // 704
    0x0000_0000_C050_0000, // 720
    0x0000_B303_0000_0000, // 736
    0x0000_0000_AC00_0000, // 752
    0x0000_0B00_0000_0000, // 768
    0x0000_000B_0D00_0000, // 784
    0x0000_0000_0000_0000, // 800
    0x0000_0003_0000_0000, // 816
    0x0000_0000_0000_0000, // 832
    0x0000_0000_0000_0000, // 848
    0x0000_0000_0000_0000, // 864
    0x0000_0000_0000_0000, // 880
    0x0000_0000_0000_0000, // 896
    0x0000_0300_0D00_0000, // 912
    0x0000_0000_0000_0000, // 928
    0x0000_0300_0000_0000, // 944
    0x0000_B000_0000_0000, // 960
    0x0000_0000_CC00_0000, // 976
    0x0000_B000_0000_0000, // 992
    0x0000_0000_0C00_0000, // 1008
];

// By extended opcode under 19: a bit for each, set for a branch.
const BRANCHES: [u64; 16] = [0x1_0000, 0, 0, 0, 0, 0, 0, 0, 0x1_0000, 0, 0, 0, 0, 0, 0, 0];

fn primary_code(p: u32) -> u32
    requires { p < 64 }
    ensures { IsPrimary p result }
{
    u32::from(PRIMARY[p as usize])
}

fn extended_codes(j: u32) -> u64
    requires { j < 64 }
    ensures { result ≡ get_or extended_codes j 0 }
{
    EXTENDED[j as usize]
}

fn branch_bits(j: u32) -> u64
    requires { j < 16 }
    ensures { result ≡ get_or branch_bits j 0 }
{
    BRANCHES[j as usize]
}

// Digit `index` of a number, of BITS bits.
fn digit<const BITS: u32>(number: u64, index: u32) -> u32
    requires { (BITS < 32) × (BITS * index < 64) }
    ensures { result ≡ digit BITS index number }
{
    ((number >> (BITS * index)) & ((1 << BITS) - 1)) as u32
}

// The code of a word's opcode.
pub fn code(w: u32) -> u32
    ensures { IsCode w result }
{
    let x = extended(w);
    match opcode(w) {
        31 => digit::<4>(extended_codes(x / 16), x % 16),
        19 => 16 * digit::<1>(branch_bits(x / 64), x % 64),
        p => primary_code(p),
    }
}

// The fields of a word that name registers, as a code.
pub fn register_fields(w: u32) -> u32
    ensures { (fields_of_code result ≡ rules.fields_named w) × (result < 16) }
{
    code(w) % 16
}

// bc, b, bclr and bcctr.
pub fn is_branch(w: u32) -> bool
    ensures { result ≡ words.is_branch w }
{
    bit(code(w), 4)
}

// Whether a field of a word that the code c says to name a register names r0 or r1.
pub fn names_low(c: u32, w: u32) -> bool
    ensures { result ≡ low_register (fields_of_code c) w }
{
    let a = field_ra(w);
    (bit(c, 0) & (field_rd(w) <= 1))
        | (bit(c, 1) & (a <= 1))
        | (bit(c, 2) & (a == 1))
        | (bit(c, 3) & (field_rb(w) <= 1))
}

// A word that names r0 or r1.
#[tactic(auto, unfolding(rules::specs::Registers::names_r0_or_r1, rules::specs::Registers::registers_named))]
pub fn names_r0_or_r1(w: u32) -> bool
    ensures { result ≡ rules.names_r0_or_r1 w }
{
    names_low(code(w), w)
}
