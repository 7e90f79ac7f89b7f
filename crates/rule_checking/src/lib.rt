// The check of a record by an enrolment rule: the rule is looked up, then the record judged, then its bits of a direction compared.
#![tactic(auto)]

ghost use Rattle.std.specs.Prelude.{◌≡◌};
ghost use Rattle.outcome.specs.Why.{answer_of};
ghost use Rattle.rule.specs.Check.{check_answer};

use judge::judge;
use outcome::{Answer, Refusal, Refused};
use rule::least_of;

// Any bytes by any rule. Nothing is written.
pub fn check(rule: u32, bytes: &[u8]) -> Answer
    ensures { result ≡ check_answer rule bytes.now }
{
    Answer::of(checked(rule, bytes))
}

// 30, 1 to 12, 31.
fn checked(rule: u32, bytes: &[u8]) -> Result<usize, Refused>
    ensures { answer_of result ≡ check_answer rule bytes.now }
{
    let Some(least) = least_of(rule) else {
        return Err(Refusal::NoRule.into());
    };
    let record = judge(bytes)?;
    if record.header.scale.widths.b < least {
        return Err(Refusal::BelowRule.into());
    }
    Ok(0)
}
