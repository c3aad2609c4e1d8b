// 256 flags for the ids 0 to 255.
ghost use Rattle.std.specs.Prelude.{[], ◌∷◌, ◌≤◌, ◌<◌};
ghost use Rattle.algebra.specs.Lists.{upward};
ghost use Rattle.reading.specs.Flags.{Marks, Adds};

// Marks `count` ids from `first` upward; none where one of them is not new or is above 255.
pub(crate) fn mark_ids(flags: [u8; 256], first: usize, count: usize) -> Option<[u8; 256]>
    requires { (first < 256) × (count ≤ 256) }
    ensures { Marks flags (upward count first) result }
{
    let mut marks = flags;
    for k in 0..count {
        let id = first + k;
        if 256 <= id {
            return None;
        }
        if marks[id] != 0 {
            return None;
        }
        marks[id] = 1;
    }
    Some(marks)
}

// Flags an id, whether it was flagged before or not.
pub fn add_id(flags: [u8; 256], id: u8) -> [u8; 256]
    ensures { Adds flags (id ∷ []) result }
{
    let mut marks = flags;
    marks[id as usize] = 1;
    marks
}

// Flags `count` ids from `first` upward; those above 255 have no flag.
pub(crate) fn add_ids(flags: [u8; 256], first: u8, count: usize) -> [u8; 256]
    requires { count ≤ 256 }
    ensures { Adds flags (upward count first) result }
{
    let mut marks = flags;
    for k in 0..count {
        let id = first as usize + k;
        if id < 256 {
            marks[id] = 1;
        }
    }
    marks
}
