// The variables of a rule, renamed: those of its case, which suit it and are new (question 42), or made ones, where there is no case.
ghost use Rattle.std.specs.Prelude.{◌≡◌, List, ℕ, ◌≤◌, length};
ghost use Rattle.rules.specs.Limits.{VARIABLES, RULEVARS};
ghost use Rattle.rules.specs.Theory.{rule};
ghost use Rattle.rules.specs.State.{Var};
ghost use Rattle.rules.specs.Invert.{suit};
ghost use Rattle.state.specs.Held.{VarCells};
ghost use Rattle.terms.specs.Table.{Below};
ghost use Rattle.inversion.specs.InvertRules.{CaseVarsAs};
ghost use Rattle.inversion.specs.Inverting.{RuleVarsIn, MadeAs, CaseVarsIn};

use crate::inverting::{CaseVars, Inverting, RuleList, RuleVars, Variables};
use casework::cases::read_case;
use casework::context::none_in;
use cells::write;
use questions::{Question, Row};
use referring::references::insert_all;
use rules::{RULEVARS, VARIABLES, VARIABLEWORDS};
use state::vars::var_sort;

impl RuleVars<'_> {
    // Whether the variables are as many as the rule has, each of its sort.
    fn suits(&self, vars: &[u32], list: &[u32]) -> bool
        requires { RuleVarsIn self.now × ((vs : List Var) × (count : ℕ) × VarCells vars.now count vs) × Below VARIABLES list.now }
        ensures { (g : RuleVarsIn self.now) (vs : List Var) (count : ℕ) → VarCells vars.now count vs →
            result ≡ suit vs list.now (rule g.T self.now.rule).vars }
    {
        list.len() == self.count
            && list.iter().enumerate().all(|(k, v)| {
                var_sort(vars, *v as usize) == self.rules.variable_sort(self.rule, k)
            })
    }

    // A variable without a name for each of the rule's: its sort comes into the table, its number into the list that is answered.
    pub fn make(&self, names: &mut Variables) -> Result<RuleList, Row>
        requires { RuleVarsIn self.now × (self.now.count ≤ RULEVARS) × (length names.old.sorts ≡ VARIABLES) × (names.old.count ≤ VARIABLES) }
        ensures made_as { (g : RuleVarsIn self.now) (vs : List Var) → length vs ≤ names.old.count →
            MadeAs vs (rule g.T self.now.rule).vars names.old names.new result }
        ensures taken_unchanged { names.new.taken ≡ names.old.taken }
    {
        let count = names.count;
        let mut list = [0u32; RULEVARS];
        // by number: behind a zip with `iter_mut` over the sorts and the list nothing is known of what was written
        for k in 0..self.count {
            let v = count + k;
            if v >= VARIABLES {
                return Err(Row::Variables);
            }
            names.sorts[v] = self.rules.variable_sort(self.rule, k) as u32;
            list[k] = v as u32;
        }
        names.count = count + self.count;
        Ok(list)
    }
}

impl Inverting<'_> {
    // The fact and the variables of the case in front, which must suit the rule and be new (question 42), and join the set.
    pub fn case_vars(
        &self,
        cells: &[u32],
        need: &RuleVars<'_>,
        taken: &mut [u64; VARIABLEWORDS],
    ) -> Result<CaseVars, Question>
        requires { CaseVarsIn self.now cells.now need.now }
        ensures { (g : CaseVarsIn self.now cells.now need.now) →
            CaseVarsAs g.S (rule g.S.theory need.now.rule).vars g.c taken.old taken.new result }
    {
        let case = read_case(&self.source.reader, cells)?;
        let own = &case.own[..case.variables];
        if !need.suits(self.source.reader.vars, own) || !none_in(taken, own) {
            return Err(Question::CaseVariables);
        }
        insert_all(own, taken);
        let mut list = [0u32; RULEVARS];
        write(&mut list, own);
        Ok(CaseVars {
            fact: case.fact,
            list,
        })
    }
}
