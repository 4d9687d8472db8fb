// Testing a combination against a book: book faults, its length, its values, then the rules.
ghost use Rattle.std.specs.Prelude.{◌≡◌, length};
ghost use Rattle.meaning.specs.Bytes.{rules_at};
ghost use Rattle.literals.specs.Found.{found};
ghost use Rattle.books.specs.Inner.{Testable, Walkable};
ghost use Rattle.books.specs.Tested.{judge_of, tested_of, first_unmet, first_over};

use crate::Untested;
use crate::reader::{read, sixteen};
use literals::{rule_end, rule_met};

// The place of the first value that is not below its setting's size; none, where all are.
fn first_over(sizes: &[u8], combination: &[u8]) -> Option<usize>
    requires { length combination.now ≡ length sizes.now }
    ensures { result ≡ found (length combination.now) (first_over sizes.now combination.now) }
{
    combination
        .iter()
        .zip(sizes)
        .position(|(value, size)| size <= value)
}

// The number of the first rule that the combination does not meet; none, where it meets all.
#[tactic(auto, using(crate::proofs::laws::Asked::unmet_loop))]
fn first_unmet(book: &[u8], rules: usize, combination: &[u8]) -> Option<usize>
    requires { Testable book.now combination.now 7 rules }
    ensures { result ≡ found rules (first_unmet (rules_at book.now 7 rules) combination.now) }
{
    let mut p = 7;
    for k in 0..rules {
        if !rule_met(book, p, combination) {
            return Some(k);
        }
        p = rule_end(book, p);
    }
    None
}

// The combination's length and values, then the rules of an accepted book over these sizes.
#[tactic(auto, using(crate::proofs::laws::Judged::judge_steps))]
fn judge(
    book: &[u8],
    sizes: &[u8],
    rules: usize,
    combination: &[u8],
) -> Result<Option<usize>, Untested>
    requires { Walkable book.now sizes.now rules }
    ensures { result ≡ judge_of sizes.now (rules_at book.now 7 rules) combination.now }
{
    if combination.len() != sizes.len() {
        return Err(Untested::Length);
    }
    if let Some(p) = first_over(sizes, combination) {
        return Err(Untested::Value(p));
    }
    Ok(first_unmet(book, rules, combination))
}

// Permitted, or the number of the first rule that the combination does not meet.
// Book faults come first, then the combination's length, then its values.
#[tactic(auto, using(crate::proofs::laws::Judged::test_steps), unfolding(crate::specs::Tested::tested_of))]
pub fn test(book: &[u8], combination: &[u8]) -> Result<Option<usize>, Untested>
    ensures { result ≡ tested_of book.now combination.now }
{
    let head = read(book)?;
    let sizes = sixteen(head.n);
    judge(book, &sizes[..head.l], head.rules, combination)
}
