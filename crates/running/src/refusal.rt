// Why a check is refused, by name, and the four numbers that documents and programs in other languages read.
ghost use Rattle.std.specs.Prelude.{◌≡◌};
ghost use Rattle.questions.specs.Numbers.{number_of, detail_of};
ghost use Rattle.running.specs.Refusals.{refusal_of};

use crate::stopped::Stopped;
use questions::Question;

#[derive(Clone, Copy, Debug, PartialEq, Eq)]
pub enum Refusal {
    // question 1, which is put to no text: a table is too short
    Tables,
    Stopped(Stopped),
}

impl Refusal {
    // The question.
    fn question(self) -> Question
        ensures { (number_of result ≡ (refusal_of self).number) × (detail_of result ≡ (refusal_of self).detail) }
    {
        match self {
            Refusal::Tables => Question::Tables,
            Refusal::Stopped(stopped) => stopped.refused.question,
        }
    }

    // The question's number.
    pub fn number(self) -> usize
        ensures { result ≡ (refusal_of self).number }
    {
        self.question().number()
    }

    // The number of the text; 0 for none.
    pub fn text(self) -> usize
        ensures { result ≡ (refusal_of self).text }
    {
        match self {
            Refusal::Tables => 0,
            Refusal::Stopped(stopped) => stopped.text.number(),
        }
    }

    // How many complete forms stand before it.
    pub fn form(self) -> usize
        ensures { result ≡ (refusal_of self).form }
    {
        match self {
            Refusal::Tables => 0,
            Refusal::Stopped(stopped) => stopped.refused.form,
        }
    }

    // What is told beside the question; 0 for nothing.
    pub fn detail(self) -> usize
        ensures { result ≡ (refusal_of self).detail }
    {
        self.question().detail()
    }
}
