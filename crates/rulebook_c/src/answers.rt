// Answers as C gets them: document 01's number, and what the call or the refusal gives.
ghost use Rattle.std.specs.Prelude.{◌≡◌, ◌≤◌};
ghost use Rattle.rulebook.specs.Told.{checked_told, fault_told, flaw_told, made_told, outcome_told, reading_told, tested_told};
ghost use Rattle.rulebook_c.specs.Answers.{answer_of, paged_of};

use rulebook::{Cursor, Fault, Flaw, Head, Listed, Made, Open, Paged, Unlisted, Unmade, Untested};

// 0 for success, else the refusal; and four values, zeros behind those that are given.
#[repr(C)]
#[derive(Clone, Copy)]
pub struct Answer {
    pub number: usize,
    pub gives: [usize; 4],
}

// A page's answer, and where the next page goes on.
#[repr(C)]
#[derive(Clone, Copy)]
pub struct PageAnswer {
    pub answer: Answer,
    pub cursor: Cursor,
}

// A number, and what it gives.
fn tell<const N: usize>(number: usize, given: [usize; N]) -> Answer
    requires { N ≤ 4 }
    ensures { result ≡ answer_of (number, given.entry) }
{
    let mut gives = [0; 4];
    gives[..N].copy_from_slice(&given);
    Answer { number, gives }
}

// What is wrong with a table.
impl From<Flaw> for Answer {
    ghost from_gives = { λ flaw answer. answer ≡ answer_of (flaw_told flaw) };

    fn from(flaw: Flaw) -> Answer {
        match flaw {
            Flaw::Limits => tell(1, []),
            Flaw::Length => tell(2, []),
            Flaw::Rows(k) => tell(3, [k]),
            Flaw::Value(p) => tell(4, [p]),
            Flaw::Order(k) => tell(5, [k]),
        }
    }
}

// What is wrong with a book.
impl From<Fault> for Answer {
    ghost from_gives = { λ fault answer. answer ≡ answer_of (fault_told fault) };

    fn from(fault: Fault) -> Answer {
        match fault {
            Fault::Cut(p) => tell(9, [p]),
            Fault::Mark(p) => tell(10, [p]),
            Fault::Field(p) => tell(11, [p]),
            Fault::Order(p) => tell(12, [p]),
            Fault::Idle(p) => tell(13, [p]),
            Fault::Family(p) => tell(14, [p]),
            Fault::Trailing(p) => tell(15, [p]),
        }
    }
}

// The number of rows of a sound table, or what is wrong with it.
impl From<Result<usize, Flaw>> for Answer {
    ghost from_gives = { λ checked answer. answer ≡ answer_of (checked_told checked) };

    fn from(checked: Result<usize, Flaw>) -> Answer {
        match checked {
            Ok(rows) => tell(0, [rows]),
            Err(flaw) => flaw.into(),
        }
    }
}

// The book's length and its number of rules, or why it is not made.
impl From<Result<Made, Unmade>> for Answer {
    ghost from_gives = { λ made answer. answer ≡ answer_of (made_told made) };

    fn from(made: Result<Made, Unmade>) -> Answer {
        match made {
            Ok(Made { length, rules }) => tell(0, [length, rules]),
            Err(Unmade::Flawed(flaw)) => flaw.into(),
            Err(Unmade::Family) => tell(6, []),
            Err(Unmade::Open(Open::Pair(i, j))) => tell(7, [i, j]),
            Err(Unmade::Open(Open::Triple(i, j, k))) => tell(7, [i, j, k]),
            Err(Unmade::Room(length)) => tell(8, [length]),
        }
    }
}

// The book's n, l, family and number of rules, or what is wrong with it.
impl From<Result<Head, Fault>> for Answer {
    ghost from_gives = { λ reading answer. answer ≡ answer_of (reading_told reading) };

    fn from(reading: Result<Head, Fault>) -> Answer {
        match reading {
            Ok(head) => tell(0, [head.n, head.l, head.family, head.rules]),
            Err(fault) => fault.into(),
        }
    }
}

// 1 if the combination is permitted, else 0 and the number of the first rule not met; or why it is not tested.
impl From<Result<Option<usize>, Untested>> for Answer {
    ghost from_gives = { λ tested answer. answer ≡ answer_of (tested_told tested) };

    fn from(tested: Result<Option<usize>, Untested>) -> Answer {
        match tested {
            Ok(None) => tell(0, [1]),
            Ok(Some(rule)) => tell(0, [0, rule]),
            Err(Untested::Faulty(fault)) => fault.into(),
            Err(Untested::Length) => tell(16, []),
            Err(Untested::Value(p)) => tell(17, [p]),
        }
    }
}

// A page's rows, its steps, and 1 if it is finished, else 0; or why there is none.
impl From<Result<Listed, Unlisted>> for Answer {
    ghost from_gives = { λ outcome answer. answer ≡ answer_of (outcome_told outcome) };

    fn from(outcome: Result<Listed, Unlisted>) -> Answer {
        match outcome {
            Ok(listed) => tell(0, [listed.rows, listed.steps, usize::from(listed.finished)]),
            Err(Unlisted::Faulty(fault)) => fault.into(),
            Err(Unlisted::BadCursor) => tell(18, []),
            Err(Unlisted::BadBudget) => tell(19, []),
            Err(Unlisted::NoRoom) => tell(20, []),
        }
    }
}

// How the page ended, beside its cursor.
impl From<Paged> for PageAnswer {
    ghost from_gives = { λ paged answer. answer ≡ paged_of paged };

    fn from(paged: Paged) -> PageAnswer {
        PageAnswer {
            answer: paged.outcome.into(),
            cursor: paged.cursor,
        }
    }
}
