// The fields of an instruction word.
ghost use Rattle.std.specs.Prelude.{◌≡◌, ◌<◌, ◌==◌};
ghost use Rattle.rules.specs.Words as rules;

// `number` bits, the lowest of them at place p, counted from the right.
pub fn field(w: u32, p: u32, number: u32) -> u32
    requires { (p < 32) × (number < 32) }
    ensures { result ≡ rules.field p number w }
{
    (w >> p) & ((1u32 << number) - 1)
}

// Whether the bit at place p, counted from the right, is set.
pub fn bit(w: u32, p: u32) -> bool
    requires { p < 32 }
    ensures { result ≡ (rules.field p 1 w == 1) }
{
    field(w, p, 1) == 1
}

// The primary opcode.
#[tactic(auto, unfolding(rules::specs::Words::primary))]
pub fn opcode(w: u32) -> u32
    ensures { result ≡ rules.primary w }
{
    field(w, 26, 6)
}

// The extended opcode.
#[tactic(auto, unfolding(rules::specs::Words::extended))]
pub fn extended(w: u32) -> u32
    ensures { result ≡ rules.extended w }
{
    field(w, 1, 10)
}

// rD, or rS.
#[tactic(auto, unfolding(rules::specs::Words::field_d))]
pub fn field_rd(w: u32) -> u32
    ensures { result ≡ rules.field_d w }
{
    field(w, 21, 5)
}

#[tactic(auto, unfolding(rules::specs::Words::field_a))]
pub fn field_ra(w: u32) -> u32
    ensures { result ≡ rules.field_a w }
{
    field(w, 16, 5)
}

#[tactic(auto, unfolding(rules::specs::Words::field_b))]
pub fn field_rb(w: u32) -> u32
    ensures { result ≡ rules.field_b w }
{
    field(w, 11, 5)
}

// BO, what a conditional branch asks for, lies where rD does.
#[tactic(auto, unfolding(rules::specs::Words::field_d, rules::specs::Words::field_bo))]
pub fn field_bo(w: u32) -> u32
    ensures { result ≡ rules.field_bo w }
{
    field_rd(w)
}

// The number of a special register: its halves are exchanged in the word.
#[tactic(auto, unfolding(rules::specs::Words::field_spr))]
pub fn field_spr(w: u32) -> u32
    ensures { result ≡ rules.field_spr w }
{
    32 * field(w, 11, 5) + field(w, 16, 5)
}
