// Why a record is on a day, or is not.

// Document 02, R-8: the reasons, in the request's order.
#[derive(Clone, Copy, PartialEq, Eq, Debug)]
pub enum Reason {
    OwnDay,
    Moved,
    IsToDo,
    BeforeStart,
    AfterEnd,
    WrongMonth,
    MonthTooShort,
    WrongDay,
    WrongWeekday,
    WrongWeek,
}
