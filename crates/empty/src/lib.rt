// One direction of an empty needle's walk: a match at every place, and between two of them the byte that lies there, rejected.
#![tactic(auto)]

ghost use Rattle.std.specs.Prelude.{◌≡◌};
ghost use Rattle.empty.specs.Turns.{turned};

// Where a direction stands: how many bytes lie ahead of it, and whether the next thing that it gives is a match.
#[derive(Clone, Copy)]
pub struct Side {
    pub ahead: usize,
    pub is_match: bool,
}

// What a call gives: a match at the place where the direction then stands, the byte that it passed, or nothing, since all was given.
#[derive(Clone, Copy)]
pub enum Gives {
    Match,
    Reject,
    Nothing,
}

// What a call gave, and where the direction stands after it.
#[derive(Clone, Copy)]
pub struct Turned {
    pub gives: Gives,
    pub side: Side,
}

// One step (`stepping`), or the next match, which passes a byte without saying so. Where nothing is left, nothing changes.
pub fn turn(side: Side, stepping: bool) -> Turned
    ensures { result ≡ turned stepping side }
{
    if side.is_match {
        let given = Side {
            ahead: side.ahead,
            is_match: false,
        };
        return Turned {
            gives: Gives::Match,
            side: given,
        };
    }
    if side.ahead == 0 {
        return Turned {
            gives: Gives::Nothing,
            side,
        };
    }
    let passed = Side {
        ahead: side.ahead - 1,
        is_match: stepping,
    };
    if stepping {
        return Turned {
            gives: Gives::Reject,
            side: passed,
        };
    }
    Turned {
        gives: Gives::Match,
        side: passed,
    }
}
