ghost use Rattle.std.specs.Prelude.{◌≡◌, IfOk};
ghost use Rattle.std.specs.Result.{result_err};
ghost use Rattle.binary.specs.Answers.{refusal_of, binary_refusal, answer_of, binary_answer, Examples};
ghost use Rattle.binary.specs.Fields.{Meant};

use super::Binary;
use crate::polynomial::splits;
use crate::rule::Rule;
use field::{FieldRefusal, fill};

impl Binary {
    // The field of order 2^p whose products are reduced by `polynomial`.
    // Refuses with Order if p is outside 1 to 6, Degree if the polynomial's degree is not p (0 has none),
    // Reducible if it is a product of two polynomials of lower degree.
    #[tactic(auto, using(crate::specs::Laws::meant, crate::proofs::Worked::examples))]
    pub fn new(p: u8, polynomial: u16) -> Result<Binary, FieldRefusal>
        ensures answer { answer_of result ≡ binary_answer p polynomial }
        ensures law { Meant p polynomial }
        ensures examples { Examples }
    {
        Ok(tabled(admitted(p, polynomial)?))
    }
}

// The field of a rule, with its tables filled.
// Stays (plain): the field names p, the polynomial and q itself, since its meaning and its facts speak of them, and not of a rule.
fn tabled(rule: Rule) -> Binary
    ensures degree { result.p ≡ rule.p }
    ensures polynomial { result.polynomial ≡ rule.polynomial }
{
    let mut products = [0; 4096];
    fill(&mut products, |k| {
        rule.product((k / 64) as u8, (k % 64) as u8)
    });
    let mut inverses = [0; 64];
    fill(&mut inverses, |a| rule.inverse(a as u8));
    Binary {
        p: rule.p,
        polynomial: rule.polynomial,
        q: rule.q,
        products,
        inverses,
    }
}

// The rule of the field, or why there is no such field.
fn admitted(p: u8, polynomial: u16) -> Result<Rule, FieldRefusal>
    ensures refused { refusal_of (result_err result) ≡ binary_refusal p polynomial }
    ensures made { IfOk result (λ rule. (rule.p ≡ p) × (rule.polynomial ≡ polynomial)) }
{
    if p < 1 || p > 6 {
        return Err(FieldRefusal::Order);
    }
    if polynomial >> p != 1 {
        return Err(FieldRefusal::Degree);
    }
    if splits(p, polynomial as u8) {
        return Err(FieldRefusal::Reducible);
    }
    Ok(Rule {
        p,
        polynomial: polynomial as u8,
        q: 1 << p,
    })
}
