//! Whether the UPDATE of a rule fits a message, by its length alone.

ghost use Rattle.std.specs.Prelude.{◌≡◌, ◌+◌, ◌*◌, ◌^◌, ◌<◌, ◌≤◌, if◌then◌else◌, length, flat_map};
ghost use Rattle.fs_attrs.specs.{Texts.{attribute_text}, Write.{actions_in}};
ghost use Rattle.fs_session.specs.Sending.{attribute_size, path_size, body_by, is_short};

use crate::sending::Sent;
use fs_actions::Actions;
use fs_attrs::Terms;
use fs_base::Numbers;

/// Whether the UPDATE of a rule fits the 4096 octets of a message, on these terms and under these AS numbers.
pub(crate) fn is_short(terms: &Terms, numbers: &Numbers, sent: &Sent) -> bool
    requires { length numbers.now ≤ 255 }
    ensures { result ≡ is_short terms.now numbers.now sent.now }
{
    19 + body_len(terms, numbers, sent) <= 4096
}

/// How many octets the body of that UPDATE has.
fn body_len(terms: &Terms, numbers: &Numbers, sent: &Sent) -> usize
    requires { length numbers.now ≤ 255 }
    ensures value { result ≡ length (body_by terms.now numbers.now sent.now) }
    ensures small { result ≤ 2 ^ 63 + 8192 }
{
    let reach = attribute_len(5 + sent.rule.frame_len());
    let as_path = attribute_len(path_len(numbers.as_slice().len(), terms.four));
    8 + reach + as_path + local_pref_len(terms) + actions_len(&sent.actions)
}

/// How many octets LOCAL_PREF has, which stands on internal sessions.
fn local_pref_len(terms: &Terms) -> usize
    ensures value { result ≡ if terms.now.external then 0 else 7 }
    ensures small { result ≤ 7 }
{
    if terms.external { 0 } else { 7 }
}

/// How many octets an attribute has whose value has so many.
fn attribute_len(value: usize) -> usize
    requires { value < 2 ^ 63 }
    ensures value { result ≡ attribute_size value }
    ensures small { result ≤ 4 + value }
{
    if value > 255 { 4 + value } else { 3 + value }
}

/// How many octets so many AS numbers take as one AS_SEQUENCE; none where there is none.
fn path_len(count: usize, four: bool) -> usize
    requires { count ≤ 255 }
    ensures value { result ≡ path_size four count }
    ensures small { result ≤ 1022 }
{
    match (count, four) {
        (0, _) => 0,
        (_, true) => 2 + 4 * count,
        (_, false) => 2 + 2 * count,
    }
}

/// How many octets the attribute of these actions has; none where there is none.
fn actions_len(actions: &Actions) -> usize
    ensures value { result ≡ length (flat_map attribute_text (actions_in actions.now)) }
    ensures small { result ≤ 2 ^ 63 + 4 }
{
    let count = actions.as_slice().len();
    if count == 0 {
        return 0;
    }
    attribute_len(8 * count)
}
