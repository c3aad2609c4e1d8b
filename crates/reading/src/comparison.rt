// The comparisons of keys and tests, as a plan's bytes name them.
ghost use Rattle.std.specs.Prelude.{◌≡◌};
ghost use Rattle.reading.specs.Plan.{comparison_from, comparison_number};

#[derive(Clone, Copy, Debug, PartialEq, Eq)]
pub enum Comparison {
    Equal,
    Unequal,
    Less,
    AtMost,
    Greater,
    AtLeast,
    // A byte that names no comparison: no accepted plan has one, and it compares as `AtLeast` does.
    Other(u8),
}

impl From<u8> for Comparison {
    ghost from_gives = { λ byte comparison. comparison ≡ comparison_from byte };

    fn from(byte: u8) -> Comparison {
        match byte {
            0 => Comparison::Equal,
            1 => Comparison::Unequal,
            2 => Comparison::Less,
            3 => Comparison::AtMost,
            4 => Comparison::Greater,
            5 => Comparison::AtLeast,
            _ => Comparison::Other(byte),
        }
    }
}

impl From<Comparison> for u8 {
    ghost from_gives = { λ comparison byte. byte ≡ comparison_number comparison };

    fn from(comparison: Comparison) -> u8 {
        match comparison {
            Comparison::Equal => 0,
            Comparison::Unequal => 1,
            Comparison::Less => 2,
            Comparison::AtMost => 3,
            Comparison::Greater => 4,
            Comparison::AtLeast => 5,
            Comparison::Other(byte) => byte,
        }
    }
}
