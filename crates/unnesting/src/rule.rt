// The eight rules. Each has a number, by which a list of steps and the definition know it.
ghost use Rattle.std.specs.Prelude.{◌≡◌};
ghost use Rattle.unnesting.specs.Shapes.{rule_number};

#[derive(Clone, Copy, Debug, PartialEq, Eq)]
pub enum Rule {
    U1 = 1,
    U2 = 2,
    U3 = 3,
    U4 = 4,
    U5 = 5,
    U6 = 6,
    U7 = 7,
    U8 = 8,
}

impl From<Rule> for u8 {
    ghost from_gives = { λ rule number. number ≡ rule_number rule };

    fn from(rule: Rule) -> u8 {
        rule as u8
    }
}
