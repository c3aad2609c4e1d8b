// The kinds of a plan's nodes, and how many children each has.
ghost use Rattle.std.specs.Prelude.{◌≡◌};
ghost use Rattle.reading.specs.Plan.{kind_entry, kind_number, kind_of, kind_row};

#[derive(Clone, Copy, Debug, PartialEq, Eq)]
pub enum Kind {
    Unit,
    Scan,
    Select,
    Project,
    Distinct,
    Cross,
    Semi,
    Anti,
    Some,
    Every,
    Fold,
    Each,
    Pair,
    Group,
    Sort,
    // A byte that names no kind: no accepted plan has one, and a node with it is looked at as a Unit.
    Other(u8),
}

impl From<u8> for Kind {
    ghost from_gives = { λ byte kind. kind ≡ kind_of byte };

    fn from(byte: u8) -> Kind {
        match byte {
            0 => Kind::Unit,
            1 => Kind::Scan,
            2 => Kind::Select,
            3 => Kind::Project,
            4 => Kind::Distinct,
            5 => Kind::Cross,
            6 => Kind::Semi,
            7 => Kind::Anti,
            8 => Kind::Some,
            9 => Kind::Every,
            10 => Kind::Fold,
            11 => Kind::Each,
            12 => Kind::Pair,
            13 => Kind::Group,
            14 => Kind::Sort,
            _ => Kind::Other(byte),
        }
    }
}

impl From<Kind> for u8 {
    ghost from_gives = { λ kind byte. byte ≡ kind_number kind };

    fn from(kind: Kind) -> u8 {
        match kind {
            Kind::Unit => 0,
            Kind::Scan => 1,
            Kind::Select => 2,
            Kind::Project => 3,
            Kind::Distinct => 4,
            Kind::Cross => 5,
            Kind::Semi => 6,
            Kind::Anti => 7,
            Kind::Some => 8,
            Kind::Every => 9,
            Kind::Fold => 10,
            Kind::Each => 11,
            Kind::Pair => 12,
            Kind::Group => 13,
            Kind::Sort => 14,
            Kind::Other(byte) => byte,
        }
    }
}

// How many children a kind has.
pub fn children_of(kind: Kind) -> u8
    ensures { result ≡ kind_entry (kind_row kind) 0 }
{
    match kind {
        Kind::Unit | Kind::Scan | Kind::Other(_) => 0,
        Kind::Select | Kind::Project | Kind::Distinct | Kind::Group | Kind::Sort => 1,
        Kind::Cross
        | Kind::Semi
        | Kind::Anti
        | Kind::Some
        | Kind::Every
        | Kind::Fold
        | Kind::Each
        | Kind::Pair => 2,
    }
}
