// What is exported.
use book::types::Book;
use days::types::DayFacts;
use falls::types::ShortMonth;

// An accepted book, the first day of a span, and the choice for short months.
#[derive(Clone, Copy)]
pub struct Request {
    pub book: Book,
    pub first: DayFacts,
    pub choice: ShortMonth,
}
