//! The line of a rule.

ghost use Rattle.std.specs.{Prelude.{◌≡◌, ◌++◌, ◌+◌, ◌<◌, ◌^◌, OnOk}, String.{string_bytes}};
ghost use Rattle.fs_changes.specs.Changes.{act_of, told_text};

use fs_base::Memory;
use fs_rules::SharedFlow;
use fs_text::print;
use itoa::{Buffer, Integer};

/// Appends a number in decimal.
fn append_number<N: Integer>(number: N, text: &mut String) -> Result<(), Memory>
    ensures { OnOk result (string_bytes text.new ≡ string_bytes text.old ++ N.text number) }
{
    let mut buffer = Buffer::new();
    text.push_str(buffer.format(number))?;
    Ok(())
}

/// Appends the line of a rule with its moment, its sign and its place, which is counted from 0 here and written from 1.
pub(crate) fn append_line(
    moment: u64,
    sign: &str,
    place: usize,
    rule: &SharedFlow,
    text: &mut String,
) -> Result<(), Memory>
    requires { place + 1 < 2 ^ 64 }
    ensures { OnOk result (string_bytes text.new
        ≡ string_bytes text.old ++ told_text moment sign.now place (act_of rule.now)) }
{
    append_number(moment, text)?;
    text.push_str(sign)?;
    append_number(place + 1, text)?;
    text.push_str(" ")?;
    let route = rule.route();
    print(&route.rule, route.actions.actions(), text)?;
    text.push_str("\n")?;
    Ok(())
}
