// How a cell is printed.
ghost use Rattle.std.specs.Prelude.{◌≡◌, Some};
ghost use Rattle.listing.specs.Listing.{shown_of};

use std::fmt;

// Blank, off scale, a number of this size below zero, or this number.
#[derive(Clone, Copy)]
pub(crate) enum Shown {
    Blank,
    OffScale,
    BelowZero(u64),
    Number(u64),
}

// `-` for blank, `+` for off scale, and a number in decimal.
impl fmt::Display for Shown {
    ghost use Rattle.listing.specs.Listing.{shown_text};

    ghost output = { λ shown. Some (shown_text shown) };

    fn fmt<W: fmt::Write>(&self, f: &mut fmt::Formatter<W>) -> fmt::Result {
        match *self {
            Shown::Blank => write!(f, "-"),
            Shown::OffScale => write!(f, "+"),
            Shown::BelowZero(size) => write!(f, "-{size}"),
            Shown::Number(number) => write!(f, "{number}"),
        }
    }
}

// By the cell's code.
pub(crate) fn cell_shown(code: i64) -> Shown
    ensures { result ≡ shown_of code }
{
    // The code of a blank has a name, so that an edit of it alone is refused (must-fail, blank_as_number).
    let blank = i64::MIN;
    if code == blank {
        return Shown::Blank;
    }
    if code == i64::MAX {
        return Shown::OffScale;
    }
    let size = code.unsigned_abs();
    if code < 0 {
        Shown::BelowZero(size)
    } else {
        Shown::Number(size)
    }
}
