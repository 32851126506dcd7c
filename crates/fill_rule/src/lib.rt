// Fill rules, and the fill of a segment.
#![tactic(auto)]

ghost use Rattle.std.specs.Prelude.{◌≡◌, cond, pos, ◌≤ℤ◌};
ghost use Rattle.fill_rule.specs.FillRule.{filled, rule_of, fill_of};

// The four fill rules.
#[derive(Clone, Copy)]
pub enum Rule {
    EvenOdd,
    NonZero,
    Positive,
    Negative,
}

// The rule of a known choice.
pub fn rule_of(choice: i32) -> Rule
    ensures { result ≡ rule_of choice }
{
    if choice == 0 {
        return Rule::EvenOdd;
    }
    if choice == 1 {
        return Rule::NonZero;
    }
    if choice == 2 {
        return Rule::Positive;
    }
    Rule::Negative
}

// Whether a side with this count is filled.
fn is_filled(rule: Rule, count: i32) -> bool
    ensures { result ≡ filled rule count }
{
    match rule {
        Rule::EvenOdd => count % 2 != 0,
        Rule::NonZero => count != 0,
        Rule::Positive => 0 < count,
        Rule::Negative => count < 0,
    }
}

// value if b, else 0.
fn bit(b: bool, value: u8) -> u8
    ensures { result ≡ cond b value 0 }
{
    if b { value } else { 0 }
}

// The fill of a segment with these counts and line bits.
pub fn fill_of(rule: Rule, top: i32, bottom: i32, bits: i32) -> u8
    requires { (pos 0 ≤ℤ bits) × (bits ≤ℤ pos 3) }
    ensures { result ≡ fill_of rule top bottom bits }
{
    bit(is_filled(rule, top), 1) + bit(is_filled(rule, bottom), 2) + 4 * bits as u8
}
