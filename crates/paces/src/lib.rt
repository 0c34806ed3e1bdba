// How a walk is asked for: a signed number of steps, told apart into a way and a count.
#![tactic(auto)]

ghost use Rattle.paces.specs.Paces.{IsPaces};

// Which relation is followed.
#[derive(Clone, Copy)]
pub enum Way {
    Next,
    Prev,
}

// So many steps that way.
#[derive(Clone, Copy)]
pub struct Paces {
    pub way: Way,
    pub steps: usize,
}

// The most steps either way.
const MOST: i32 = 64;

// The steps that a number asks for, or none if they are more than there may be. Nothing is negated before it is known to lie in range: the
// smallest number has no opposite.
pub fn paces_of(n: i32) -> Option<Paces>
    ensures { IsPaces n result }
{
    if n < -MOST {
        return None;
    }
    if n > MOST {
        return None;
    }
    if n < 0 {
        return Some(Paces {
            way: Way::Prev,
            steps: (-n) as usize,
        });
    }
    Some(Paces {
        way: Way::Next,
        steps: n as usize,
    })
}
