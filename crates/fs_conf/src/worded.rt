//! A rule of the rules file in words.

ghost use Rattle.std.specs.Prelude.{◌≡◌, Some, None, IfOk, IsErrOf};
ghost use Rattle.fs_conf.specs.{Sent.{sent_of_text}, WordedLaw.{SaysItsOwn, SaysWhy}};

use crate::config::ConfFault;
use fs_attrs::rules_are_the_outcome;
use fs_base::Memory;
use fs_speaker::Sent;
use fs_text::{TextFault, each_text_has_one_pair, read};
use std::alloc::Global;

/// In a rules file a text says a rule and actions exactly where it is their text, the rule is one, and the actions are
/// in normal form, by rising octets and each once.
pub fn says_its_own()
    ensures { SaysItsOwn }
{
    rules_are_the_outcome();
    each_text_has_one_pair();
}

/// The rule and the actions whose text this is. `Refused` where it is that of none.
pub(crate) fn sent_of_text(alloc: Global, text: &str) -> Result<Sent, ConfFault>
    ensures ok { IfOk result (λ sent. sent_of_text text.now ≡ Some sent) }
    ensures refused { IsErrOf result ConfFault.Refused → sent_of_text text.now ≡ None }
{
    says_its_own();
    match read(alloc, text) {
        Ok((rule, actions)) => Ok(Sent { rule, actions }),
        Err(TextFault::Memory) => Err(ConfFault::Memory),
        Err(TextFault::Bad { .. }) => Err(ConfFault::Refused),
        Err(TextFault::TooLong) => Err(ConfFault::Refused),
    }
}

/// Why a text is none; nothing where it is one.
pub(crate) fn text_fault(alloc: Global, text: &str) -> Result<Option<TextFault>, Memory>
    ensures { IfOk result (SaysWhy text.now) }
{
    says_its_own();
    match read(alloc, text) {
        Ok(_) => Ok(None),
        Err(TextFault::Memory) => Err(Memory),
        Err(TextFault::Bad { word }) => Ok(Some(TextFault::Bad { word })),
        Err(TextFault::TooLong) => Ok(Some(TextFault::TooLong)),
    }
}
