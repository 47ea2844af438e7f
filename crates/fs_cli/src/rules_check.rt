//! Says of a rules file whether it is accepted, and where its first fault is.

ghost use Rattle.std.specs.Prelude.{◌≡◌, ◌≤◌, ◌⊎◌, IfOk, IsTrue};
ghost use Rattle.fs_base.specs.Outside.{Rose};
ghost use Rattle.cmd_stages.specs.{Load.{OpensFront}, Refusal.{IsOfFile, answered}, Said.{Says, said_shown}};
ghost use Rattle.fs_cli.specs.{FileCheck.{IsDue, OfRules, file_openings}, RulesCheck.{JudgesRules}};

use cmd_stages::{RULES_SLOT, Refusal, Said, load_config, load_file, status};
use fs_base::{Config, Files, Memory};
use fs_conf::{RulesFault, judge_rules, names_the_rules_fault};
use std::alloc::Global;

/// Reads a configuration and the rules file beside it, and says what there is to say of the rules file.
pub(crate) fn say_of_rules<F: Files>(
    alloc: Global,
    files: &mut F,
    config: &str,
    rules: &str,
    limit: u64,
) -> Result<Said, Refusal>
    ensures later { F.faults files.old ≤ F.faults files.new }
    ensures possible { IsOfFile (answered result) }
    ensures accepted { IfOk result (λ said. (said.status ≡ 0) ⊎ (said.status ≡ 9)) }

    ensures said { IsTrue F.tells
        → Says (IsDue limit (F.holds files.old) (OfRules config.now rules.now))
        (Rose (F.faults files.old) (F.faults files.new)) result }
    ensures opens { OpensFront (file_openings (OfRules config.now rules.now))
        (F.opened files.old) (F.opened files.new) (answered result) }
{
    let accepted = load_config(alloc, files, config, limit)?;
    let octets = load_file(alloc, files, RULES_SLOT, rules, limit)?;
    Ok(said_of_rules(alloc, &octets, &accepted)?)
}

/// What there is to say of the octets of a rules file.
fn said_of_rules(alloc: Global, octets: &[u8], config: &Config) -> Result<Said, Memory>
    ensures accepted { IfOk result (λ said. (said.status ≡ 0) ⊎ (said.status ≡ 9)) }
    ensures judged { IfOk result (λ said. JudgesRules config.now octets.now (said_shown said)) }
{
    names_the_rules_fault();
    match judge_rules(alloc, octets, config) {
        Ok(sending) => {
            let rules = sending.rules.as_slice().len();
            Ok(Said {
                status: status::DONE,
                text: format!(in alloc; "rules {rules}\n")?,
            })
        }
        Err(RulesFault::Memory) => Err(Memory),
        Err(fault) => Ok(Said {
            status: status::NLRI,
            text: format!(in alloc; "rules {fault}\n")?,
        }),
    }
}
