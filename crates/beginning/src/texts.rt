// Questions 2 and 3, put to the texts of a check in turn.
ghost use Rattle.std.specs.Prelude.{◌≡◌, Bool, List, ℕ};
ghost use Rattle.rules.specs.Check.{first_failing};
ghost use Rattle.beginning.specs.Asking.{PutToEach, AskedAs};

use questions::{Question, Text};
use running::stopped::Stopped;
use running::texts::Texts;
use sexp::lex::{plain, short};

// A question, put to each text in turn; the first that fails the test is refused, before its first form.
fn each<F: Fn(&[u8]) -> bool>(
    texts: &Texts<'_>,
    question: Question,
    passes: F,
) -> Result<(), Stopped>
    requires { F.IsAlwaysCallable passes }
    ensures { (p : List ℕ → Bool) → ((x : _) (r : Bool) → F.post passes x r → r ≡ p x.now) →
        PutToEach question (first_failing p texts.now.theory.now texts.now.goals.now texts.now.proof.now) result }
{
    let all = [
        (Text::Theory, texts.theory),
        (Text::Goals, texts.goals),
        (Text::Proof, texts.proof),
    ];
    for (text, bytes) in all {
        if !passes(bytes) {
            return Err(Stopped::left_in(text, question.behind(0)));
        }
    }
    Ok(())
}

// All texts are asked question 2 before any is asked question 3.
pub fn ask(texts: &Texts<'_>) -> Result<(), Stopped>
    ensures { AskedAs texts.now.theory.now texts.now.goals.now texts.now.proof.now result }
{
    each(texts, Question::Length, short)?;
    each(texts, Question::Bytes, plain)
}
