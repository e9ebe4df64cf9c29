//! The steps from a cell to the cells around it.
ghost use Rattle.std.specs.Prelude.{◌≡◌};
ghost use Rattle.cost.specs.Octiles.{way_o};
ghost use Rattle.ground.specs.Grounds.{OnlyWayCosts};
ghost use Rattle.ground.specs.Marks.{shut_in, free_in};
ghost use Rattle.sheet.specs.Sheets.{sheet_chart};
ghost use Rattle.sheet.specs.Steps.{table, moved, neighbour_of, free_at, step_to, step_between, past};

use crate::Sheet;
use cost::octile::Octile;

// So many rows down and so many columns to the right.
#[derive(Clone, Copy)]
pub struct Offset {
    pub(crate) down: i8,
    pub(crate) right: i8,
}

// Where a step leads, and for a diagonal one the two cells beside the corner that it passes.
#[derive(Clone, Copy)]
pub struct Step {
    pub(crate) to: Offset,
    pub(crate) beside: Option<(Offset, Offset)>,
}

const UP: Offset = Offset { down: -1, right: 0 };

const DOWN: Offset = Offset { down: 1, right: 0 };

const LEFT: Offset = Offset { down: 0, right: -1 };

const RIGHT: Offset = Offset { down: 0, right: 1 };

const UP_LEFT: Offset = Offset {
    down: -1,
    right: -1,
};

const UP_RIGHT: Offset = Offset { down: -1, right: 1 };

const DOWN_LEFT: Offset = Offset { down: 1, right: -1 };

const DOWN_RIGHT: Offset = Offset { down: 1, right: 1 };

// A constant table, so that no step is worked out where a way is asked for.
const STEPS: [Step; 8] = [
    Step {
        to: UP,
        beside: None,
    },
    Step {
        to: DOWN,
        beside: None,
    },
    Step {
        to: LEFT,
        beside: None,
    },
    Step {
        to: RIGHT,
        beside: None,
    },
    Step {
        to: UP_LEFT,
        beside: Some((LEFT, UP)),
    },
    Step {
        to: UP_RIGHT,
        beside: Some((RIGHT, UP)),
    },
    Step {
        to: DOWN_LEFT,
        beside: Some((LEFT, DOWN)),
    },
    Step {
        to: DOWN_RIGHT,
        beside: Some((RIGHT, DOWN)),
    },
];

fn steps() -> [Step; 8]
    ensures { result ≡ table }
{
    STEPS
}

impl Sheet {
    // The cost of the way between two places, if there is one.
    pub(crate) fn way_between(&self, from: usize, to: usize) -> Option<Octile>
        ensures is { result ≡ sheet_chart self.now.width self.now.height (shut_in self.now.places) from to }
        ensures fair { OnlyWayCosts way_o (sheet_chart self.now.width self.now.height) }
    {
        let step = self.step_between(from, to)?;
        self.step_cost(from, step)
    }

    // The step from a free place to another.
    fn step_between(&self, from: usize, to: usize) -> Option<Step>
        ensures { result ≡ step_between (free_in self.now.places) self.now.width self.now.height from to }
    {
        if self.places.is_free(from) && self.places.is_free(to) {
            self.step_to(from, to)
        } else {
            None
        }
    }

    // The step that leads from a place to another.
    fn step_to(&self, from: usize, to: usize) -> Option<Step>
        ensures { result ≡ step_to self.now.width self.now.height from to }
    {
        steps()
            .iter()
            .find(|step| self.neighbour(from, step.to) == Some(to))
            .copied()
    }

    // The cost of a step, if it may be made: past a corner only where both cells beside it are free.
    fn step_cost(&self, from: usize, step: Step) -> Option<Octile>
        ensures { result ≡ past (λ by. free_at (free_in self.now.places) (neighbour_of self.now.width self.now.height from by)) step.beside }
    {
        match step.beside {
            None => Some(Octile::new(1, 0)),
            Some((one, other)) if self.is_free_at(from, one) && self.is_free_at(from, other) => {
                Some(Octile::new(0, 1))
            }
            Some(_) => None,
        }
    }

    fn is_free_at(&self, from: usize, by: Offset) -> bool
        ensures { result ≡ free_at (free_in self.now.places) (neighbour_of self.now.width self.now.height from by) }
    {
        self.neighbour(from, by)
            .is_some_and(|place| self.places.is_free(place))
    }

    // The place that lies so far from another, if it is on the sheet.
    fn neighbour(&self, from: usize, by: Offset) -> Option<usize>
        ensures { result ≡ neighbour_of self.now.width self.now.height from by }
    {
        let row = shifted(from.checked_div(self.width)?, by.down, self.height)?;
        let column = shifted(from.checked_rem(self.width)?, by.right, self.width)?;
        Some(row * self.width + column)
    }
}

// `at` moved by `by`, where that is below `end`.
fn shifted(at: usize, by: i8, end: usize) -> Option<usize>
    ensures { result ≡ moved at by end }
{
    at.checked_add_signed(isize::from(by))
        .filter(|to| *to < end)
}
