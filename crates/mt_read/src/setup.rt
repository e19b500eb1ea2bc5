//! The line `rule`, of the commands before the picture begins.
ghost use Rattle.std.specs.Prelude.{⊤, []};
ghost use Rattle.mt_read.specs.Private.FieldReading.{Reads, ReadsRow, standing};
ghost use Rattle.mt_read.specs.Rules.{rule_bounds, rules_with};
ghost use Rattle.mt_read.specs.Table.{layout_of};
ghost use Rattle.mt_read.specs.declared.word.Word.TheVariants as word;

use crate::key::{Fault, Key};
use crate::reading::FieldReading;
use crate::request::{Request, RuleSet};
use mt_base::{RuleName, Rules};

/// `rule`.
pub(crate) fn rule_line(reading: &mut FieldReading) -> Request
    ensures { ReadsRow reading.old reading.new (layout_of word.Rule) result }
{
    let sh = reading.rule(RuleName::Sh);
    let sv = reading.rule(RuleName::Sv);
    let r0 = reading.rule(RuleName::R0);
    let gh = reading.rule(RuleName::Gh);
    let rmax = reading.rule(RuleName::Rmax);
    let w0 = reading.rule(RuleName::W0);
    let gv = reading.rule(RuleName::Gv);
    let wmax = reading.rule(RuleName::Wmax);
    let tc = reading.rule(RuleName::Tc);
    let ta = reading.rule(RuleName::Ta);
    let tv = reading.rule(RuleName::Tv);
    let flights = reading.rule(RuleName::Flights);
    let history = reading.rule(RuleName::History);
    let sv2 = reading.rule(RuleName::Sv2);
    Request::Rule(RuleSet {
        sh,
        sv,
        r0,
        gh,
        rmax,
        w0,
        gv,
        wmax,
        tc,
        ta,
        tv,
        flights,
        history,
        sv2,
    })
}

// The rules, as they would stand with these set, are within their bounds.
#[tactic(auto, using(crate::proofs::StepLemmas::judged_rules))]
fn rules_stand(reading: &mut FieldReading, set: &RuleSet, rules: &Rules)
    ensures { Reads {A = ⊤} reading.old reading.new [] (λ _. rule_bounds (rules_with set.now rules.now)) (λ _. tt {0}) (tt {0}) }
{
    if let Err(name) = set.over(rules).check() {
        reading.refuse(Fault::Range(Key::Rule(name)));
    }
}

/// The rules, as they would stand by what is asked, are within their bounds.
pub(crate) fn stand(reading: &mut FieldReading, asked: &Request, rules: &Rules)
    ensures { Reads {A = ⊤} reading.old reading.new [] (λ _. standing rules.now asked.now) (λ _. tt {0}) (tt {0}) }
{
    if let Request::Rule(set) = asked {
        rules_stand(reading, set, rules);
    }
}
