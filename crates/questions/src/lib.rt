// The questions put to the texts of a check, by name. A question that is answered by no ends the check: it is the error of every function that puts one,
// and its number and detail are what the caller of a check reads.
#![tactic(auto)]

ghost use Rattle.std.specs.Prelude.{◌≡◌};
ghost use Rattle.questions.specs.Numbers.{row_number, text_number, number_of, detail_of};
ghost use Rattle.questions.specs.declared.Question.TheVariants.{Room};

// The texts of a check, each with its number, which programs in other languages read; theirs is 0 for none.
#[derive(Clone, Copy, Debug, PartialEq, Eq)]
pub enum Text {
    Theory = 1,
    Goals = 2,
    Proof = 3,
}

// What has no room: the rows of question 60, each with its number.
#[derive(Clone, Copy, Debug, PartialEq, Eq)]
pub enum Row {
    Sorts = 1,
    Symbols = 2,
    Arguments = 3,
    Rules = 4,
    RuleVariables = 5,
    PatternWords = 6,
    Variables = 7,
    Terms = 8,
    TermWords = 9,
    Abbreviations = 10,
    Goals = 11,
    Facts = 12,
    Entries = 13,
    Pairs = 14,
}

// Those of the call and of the texts as such, of the theory, of goals, of the proof and its forms, of results, and of the room for what is stored.
#[derive(Clone, Copy, Debug, PartialEq, Eq)]
pub enum Question {
    // are all work tables long enough?
    Tables,
    // is each text short enough, and every byte allowed?
    Length,
    Bytes,
    // do the brackets pair, and are not too many open at once?
    Brackets,
    Depth,
    // a theory's form by its tag and length; its names, new or known as needed; sorts and argument counts
    Declaration,
    Declared,
    Signature,
    // a form of the goals by its tag and length; the name and sort of a variable
    GoalForm,
    Variable,
    // a judgment or a term: spelled from known names, and with the right sorts and counts
    Spelling,
    Sorting,
    // a goal's name; whether there is a goal
    GoalName,
    NoGoal,
    // a form of the proof by its tag and length; its index, readable and the next; the name of an abbreviation or a rule
    ProofForm,
    Index,
    NextIndex,
    Defined,
    // a fact that is named; an instance of one with hypotheses; a binding
    Earlier,
    Instance,
    Binding,
    // the premises of a step; conclusion and premises against its rule; the lowest variable that is in neither the conclusion nor the hypotheses, counted
    // from 1 as it is told: `detail` answers for each value, and no number is one higher than the highest
    Premises,
    Matching,
    Scope(usize),
    // a hypothesis of the right kind
    Hypothesis,
    // the cases of an induction or an inversion: their shape and number, variables, judgment and hypotheses; the variable of an induction; a rule
    // that cannot conclude, a case that is missing, a generalised variable that is captured
    Cases,
    CaseVariables,
    CaseJudgment,
    CaseHypotheses,
    InductionVariable,
    CannotConclude,
    MissingCase,
    Captured,
    // a result: its name, hypotheses and judgment; how many goals have none
    ResultName,
    ResultHypotheses,
    ResultJudgment,
    MissingResults(usize),
    // is there room for what is stored?
    Room(Row),
}

// The question answered by no, and how many complete forms stand before.
#[derive(Clone, Copy, Debug, PartialEq, Eq)]
pub struct Refused {
    pub question: Question,
    pub form: usize,
}

impl Text {
    // Its number.
    pub fn number(self) -> usize
        ensures { result ≡ text_number self }
    {
        self as usize
    }
}

impl Row {
    // Its number.
    pub fn number(self) -> usize
        ensures { result ≡ row_number self }
    {
        self as usize
    }
}

impl From<Row> for Question {
    ghost from_gives = { λ row question. question ≡ Room row };

    fn from(row: Row) -> Question {
        Question::Room(row)
    }
}

impl Question {
    // Its number; some questions carry values, so that the language has no place for it beside their names.
    pub fn number(self) -> usize
        ensures { result ≡ number_of self }
    {
        match self {
            Question::Tables => 1,
            Question::Length => 2,
            Question::Bytes => 3,
            Question::Brackets => 4,
            Question::Depth => 5,
            Question::Declaration => 10,
            Question::Declared => 11,
            Question::Signature => 12,
            Question::GoalForm => 20,
            Question::Variable => 21,
            Question::Spelling => 22,
            Question::Sorting => 23,
            Question::GoalName => 24,
            Question::NoGoal => 25,
            Question::ProofForm => 30,
            Question::Index => 31,
            Question::NextIndex => 32,
            Question::Defined => 33,
            Question::Earlier => 34,
            Question::Instance => 35,
            Question::Binding => 36,
            Question::Premises => 37,
            Question::Matching => 38,
            Question::Scope(_) => 39,
            Question::Hypothesis => 40,
            Question::Cases => 41,
            Question::CaseVariables => 42,
            Question::CaseJudgment => 43,
            Question::CaseHypotheses => 44,
            Question::InductionVariable => 45,
            Question::CannotConclude => 46,
            Question::MissingCase => 47,
            Question::Captured => 48,
            Question::ResultName => 50,
            Question::ResultHypotheses => 51,
            Question::ResultJudgment => 52,
            Question::MissingResults(_) => 53,
            Question::Room(_) => 60,
        }
    }

    // What is told beside it: a variable, a count, the number of a row; 0 for the others, as the definition and programs in other languages have it.
    pub fn detail(self) -> usize
        ensures { result ≡ detail_of self }
    {
        match self {
            Question::Scope(variable) => variable,
            Question::MissingResults(count) => count,
            Question::Room(row) => row.number(),
            _ => 0,
        }
    }

    // It answered by no, behind so many complete forms.
    pub fn behind(self, forms: usize) -> Refused
        ensures { result ≡ record { question = self; form = forms } }
    {
        Refused {
            question: self,
            form: forms,
        }
    }
}
