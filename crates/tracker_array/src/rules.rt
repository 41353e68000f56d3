// The two rules of a period, by their numbers.
ghost use Rattle.std.specs.Prelude.{◌≡◌};
ghost use Rattle.tracker_array.specs.Array.{is_rule, rule_of};

use packet::Rule;

// Whether a number is a rule's.
pub fn is_rule(n: u64) -> bool
    ensures { result ≡ is_rule n }
{
    Rule::try_from(n).is_ok()
}

// The rule of a number; any but 2 counts as rule 1.
pub fn rule_of(n: u64) -> Rule
    ensures { result ≡ rule_of n }
{
    Rule::try_from(n).unwrap_or(Rule::One)
}
