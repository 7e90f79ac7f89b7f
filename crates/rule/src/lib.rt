// The enrolment rules, from one fixed table. What a check by a rule gives is in specs/.
#![tactic(auto)]

ghost use Rattle.std.specs.Prelude.{◌≡◌};
ghost use Rattle.rule.specs.Rules.{least_of};
ghost use Rattle.rule.specs.Row.{known_least};

// A rule's number, and the fewest bits of a start or end direction that it accepts.
#[derive(Clone, Copy)]
pub struct Rule {
    pub number: u32,
    pub least: usize,
}

const RULES: [Rule; 2] = [
    Rule {
        number: 1,
        least: 4,
    },
    Rule {
        number: 2,
        least: 6,
    },
];

// How many bits the rule of that number wants at least; none where there is no such rule.
pub fn least_of(number: u32) -> Option<usize>
    ensures { known_least result ≡ least_of number }
{
    for row in &RULES {
        if row.number == number {
            return Some(row.least);
        }
    }
    None
}
