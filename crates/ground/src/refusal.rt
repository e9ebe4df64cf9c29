//! Why a call is refused.
ghost use Rattle.std.specs.Prelude.{◌≡◌};
ghost use Rattle.ground.specs.Refusals.{number_of, position_of};

use thiserror::Error;

/// Why a call is refused. Each case has a fixed number; those that speak of one record, cell or place say which.
#[derive(Clone, Copy, PartialEq, Eq, Debug, Error)]
pub enum Refusal {
    /// More than 256 places or cells, or a width or height of 0.
    #[error("there are more than 256 places or cells, or a width or height of 0")]
    SizeOutOfRange,
    /// More than 1,024 records, or not as many bytes as cells.
    #[error("there are more than 1024 records, or not as many bytes as cells")]
    WrongLength,
    /// The record names a place that is not on the ground.
    #[error("the record names a place that is not on the ground")]
    RecordOffGround { at: usize },
    /// The record's two places are the same.
    #[error("the record's two places are the same")]
    RecordToItself { at: usize },
    /// The record's cost is no way cost.
    #[error("the record's cost is no way cost")]
    RecordCost { at: usize },
    /// The record names a pair that an earlier one names, in either order.
    #[error("the record names a pair that an earlier one names")]
    RecordRepeated { at: usize },
    /// The cell is neither 0 nor 1.
    #[error("the cell is neither free nor blocked")]
    CellUnknown { at: usize },
    /// The number of levels chosen is not 1 to 32.
    #[error("the number of levels is not 1 to 32")]
    LevelsOutOfRange,
    // `asked` is a number and no enum, since `position` answers it as it is.
    /// The place is not on the ground; `asked` is 1 for a route's second place and otherwise 0.
    #[error("the place is not on the ground")]
    OffGround { asked: usize },
    /// The place is shut; `asked` is 1 for a route's second place and otherwise 0.
    #[error("the place is shut")]
    AlreadyShut { asked: usize },
    /// The place is free.
    #[error("the place is free")]
    AlreadyFree,
    /// The record table has fewer records than there are places.
    #[error("the record table has fewer records than there are places")]
    TableTooShort,
    /// There is no way from the first place to the second.
    #[error("there is no way")]
    NoWay,
    /// The route laid out has more than 256 places.
    #[error("the route has more than 256 places")]
    RouteTooLong,
    /// The place list is shorter than the route.
    #[error("the place list is shorter than the route")]
    ListTooShort,
    /// There is no shortcut of that number.
    #[error("there is no shortcut of that number")]
    NoSuchShortcut,
}

impl Refusal {
    /// The number of this refusal.
    pub fn number(&self) -> u8
        ensures { result ≡ number_of self.now }
    {
        match self {
            Refusal::SizeOutOfRange => 1,
            Refusal::WrongLength => 2,
            Refusal::RecordOffGround { .. } => 3,
            Refusal::RecordToItself { .. } => 4,
            Refusal::RecordCost { .. } => 5,
            Refusal::RecordRepeated { .. } => 6,
            Refusal::CellUnknown { .. } => 7,
            Refusal::LevelsOutOfRange => 8,
            Refusal::OffGround { .. } => 9,
            Refusal::AlreadyShut { .. } => 10,
            Refusal::AlreadyFree => 11,
            Refusal::TableTooShort => 12,
            Refusal::NoWay => 13,
            Refusal::RouteTooLong => 14,
            Refusal::ListTooShort => 15,
            Refusal::NoSuchShortcut => 16,
        }
    }

    /// The record or cell that is refused, 1 for a route's second place, and otherwise 0.
    pub fn position(&self) -> usize
        ensures { result ≡ position_of self.now }
    {
        match self {
            Refusal::RecordOffGround { at }
            | Refusal::RecordToItself { at }
            | Refusal::RecordCost { at }
            | Refusal::RecordRepeated { at }
            | Refusal::CellUnknown { at } => *at,
            Refusal::OffGround { asked } | Refusal::AlreadyShut { asked } => *asked,
            _ => 0,
        }
    }
}
