// The rules of a table, sent row by row: left, right and middle of each.
ghost use Rattle.std.specs.Prelude.{◌+◌, ◌<◌};
ghost use Rattle.makers.specs.Inner.{Countable, Apart, SentBetween, SentMiddle, SentRow, SentAll};

use crate::earlier::differs_before;
use crate::rows::{Source, split};
use crate::sending::Draft;
use crate::slots::apart;
use literals::Sign;
use reducing::Hand;

impl Source<'_> {
    // The middle rule between two rows that part at setting i.
    fn between(&self, low: &[u8], high: &[u8], i: usize, draft: &mut Draft)
        requires { Apart self.now low.now high.now i × Countable draft.old.made 1 }
        ensures { SentBetween self.now low.now high.now i draft.old draft.new }
    {
        if apart(low[i], high[i]) {
            let mut rule = differs_before(self.sizes, low, i);
            rule.push(i as u8, Sign::AtMost, low[i]);
            rule.push(i as u8, Sign::AtLeast, high[i]);
            self.send(rule, draft);
        }
    }

    // The middle rule between row k and the next, where there is a next.
    fn middle(&self, k: usize, draft: &mut Draft)
        requires { (k < self.now.rows) × Countable draft.old.made 1 }
        ensures { SentMiddle self.now k draft.old draft.new }
    {
        let next = k + 1;
        if next < self.rows {
            let low = self.row(k);
            let high = self.row(next);
            let i = split(low, high);
            self.between(low, high, i, draft);
        }
    }

    // The rules of row k: left, right, middle.
    fn row_rules(&self, k: usize, draft: &mut Draft)
        requires { (k < self.now.rows) × Countable draft.old.made 33 }
        ensures { SentRow self.now k draft.old draft.new }
    {
        let left = self.fork(k);
        let right = self.fork(k + 1);
        let values = self.row(k);
        self.edges(values, Sign::AtLeast, left, draft);
        self.edges(values, Sign::AtMost, right, draft);
        self.middle(k, draft);
    }

    // The rules of all rows. Apart from `rules`, so that a table without rows costs only its one rule.
    #[inline(never)]
    fn row_by_row(&self, draft: &mut Draft)
        requires { (0 < self.now.rows) × Countable draft.old.made 16896 }
        ensures { SentAll self.now draft.old draft.new }
    {
        for k in 0..self.rows {
            self.row_rules(k, draft);
        }
    }

    // The rules of a table in a family; for no rows one rule without literals.
    pub fn rules(&self, draft: &mut Draft)
        requires { Countable draft.old.made 16896 }
        ensures { SentAll self.now draft.old draft.new }
    {
        let none = self.rows == 0;
        if none {
            draft.send(&Hand::empty());
        } else {
            self.row_by_row(draft);
        }
    }
}
