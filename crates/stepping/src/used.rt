// How much is used of the tables that a check fills: kept by the caller from form to form, since the tables are lent anew each time.
use state::sizes::Sizes;
use terms::store::Mark;

// Of the theory's and the check's tables, and of the store.
#[derive(Clone, Copy, Debug, PartialEq, Eq)]
pub struct Used {
    pub n: Sizes,
    pub mark: Mark,
}
