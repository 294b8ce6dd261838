// The tag of a form, by its items.
ghost use Rattle.std.specs.Prelude.{◌≡◌};
ghost use Rattle.rules.specs.Sexp.{Sexps};
ghost use Rattle.rules.specs.Tags.{goal_form, proof_tag};
ghost use Rattle.sexp.specs.Items.{Held, Holds};
ghost use Rattle.sexp.specs.TagTable.{goal_answer, tag_answer};
ghost use Rattle.taking.specs.Tagged.{tagged};

use sexp::items;
use sexp::tags::{GoalForm, Tag, goal_tag, proof_tag};

// Of the goals.
pub fn tag_of_goal(text: &[u8], items: &[u32]) -> Option<GoalForm>
    requires { Held text.now items.now }
    ensures { (xs : Sexps) → Holds text.now items.now xs → result ≡ goal_answer (tagged goal_form xs) }
{
    let name = items::head(text, items)?;
    goal_tag(name, items::count(items))
}

// Of the proof. One function for both would be handed `goal_tag` or `proof_tag` and what each promises, and say these two lines no more plainly.
pub fn tag_of(text: &[u8], items: &[u32]) -> Option<Tag>
    requires { Held text.now items.now }
    ensures { (xs : Sexps) → Holds text.now items.now xs → result ≡ tag_answer (tagged proof_tag xs) }
{
    let name = items::head(text, items)?;
    proof_tag(name, items::count(items))
}
