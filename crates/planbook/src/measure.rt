// Whether the judge of a book measures.
use crate::answer::Answer;
use book::Book;
use judges::MeasuringJudge;
use refusals::Refusal;

// What a book over a judge answers for a reckoned response.
pub trait Measure<J> {
    fn reckoned(book: &Book<J>, id: u8) -> Result<Answer, Refusal>;
}

pub struct Measures;

impl<J: MeasuringJudge> Measure<J> for Measures {
    fn reckoned(book: &Book<J>, id: u8) -> Result<Answer, Refusal> {
        Ok(Answer::Reckoned(book.reckoned(id)?))
    }
}

pub struct OnlyRules;

impl<J> Measure<J> for OnlyRules {
    fn reckoned(_: &Book<J>, _: u8) -> Result<Answer, Refusal> {
        Ok(Answer::NoMeasure)
    }
}
